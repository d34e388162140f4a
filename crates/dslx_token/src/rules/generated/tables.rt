//! Written by tools/grammar_tables.py from docs/dslx.grammar.
//!
//! The tables of the grammar.

use super::{kind, nonterminal};
use base::grammar::Symbol::{Nonterminal, Terminal};
use base::grammar::{Production, Span, Symbol};

/// The bodies of the productions, one behind the other.
pub static SYMBOLS: [Symbol; 481] = [
    // module = items
    Nonterminal(nonterminal::ITEMS),
    // items = item items
    Nonterminal(nonterminal::ITEM),
    Nonterminal(nonterminal::ITEMS),
    // items = (nothing)
    // item = PUB definition
    Terminal(kind::PUB),
    Nonterminal(nonterminal::DEFINITION),
    // item = definition
    Nonterminal(nonterminal::DEFINITION),
    // definition = function
    Nonterminal(nonterminal::FUNCTION),
    // definition = proc
    Nonterminal(nonterminal::PROC),
    // definition = constant
    Nonterminal(nonterminal::CONSTANT),
    // definition = alias
    Nonterminal(nonterminal::ALIAS),
    // definition = structure
    Nonterminal(nonterminal::STRUCTURE),
    // definition = enumeration
    Nonterminal(nonterminal::ENUMERATION),
    // any_name = NAME
    Terminal(kind::NAME),
    // any_name = TYPENAME
    Terminal(kind::TYPENAME),
    // any_name = FUNNAME
    Terminal(kind::FUNNAME),
    // any_name = STRUCTNAME
    Terminal(kind::STRUCTNAME),
    // any_name = BOTHNAME
    Terminal(kind::BOTHNAME),
    // open_brace = LBRACE
    Terminal(kind::LBRACE),
    // open_brace = FIELDS
    Terminal(kind::FIELDS),
    // open_angle = LT
    Terminal(kind::LT),
    // open_angle = ARGS
    Terminal(kind::ARGS),
    // function = FN any_name parameters LPAREN arguments_declared RPAREN result_type block
    Terminal(kind::FN),
    Nonterminal(nonterminal::ANY_NAME),
    Nonterminal(nonterminal::PARAMETERS),
    Terminal(kind::LPAREN),
    Nonterminal(nonterminal::ARGUMENTS_DECLARED),
    Terminal(kind::RPAREN),
    Nonterminal(nonterminal::RESULT_TYPE),
    Nonterminal(nonterminal::BLOCK),
    // result_type = ARROW type
    Terminal(kind::ARROW),
    Nonterminal(nonterminal::TYPE),
    // result_type = (nothing)
    // parameters = open_angle parameter parameters_more GT
    Nonterminal(nonterminal::OPEN_ANGLE),
    Nonterminal(nonterminal::PARAMETER),
    Nonterminal(nonterminal::PARAMETERS_MORE),
    Terminal(kind::GT),
    // parameters = (nothing)
    // parameters_more = COMMA parameter parameters_more
    Terminal(kind::COMMA),
    Nonterminal(nonterminal::PARAMETER),
    Nonterminal(nonterminal::PARAMETERS_MORE),
    // parameters_more = (nothing)
    // parameter = any_name COLON type parameter_default
    Nonterminal(nonterminal::ANY_NAME),
    Terminal(kind::COLON),
    Nonterminal(nonterminal::TYPE),
    Nonterminal(nonterminal::PARAMETER_DEFAULT),
    // parameter_default = ASSIGN LBRACE expr RBRACE
    Terminal(kind::ASSIGN),
    Terminal(kind::LBRACE),
    Nonterminal(nonterminal::EXPR),
    Terminal(kind::RBRACE),
    // parameter_default = (nothing)
    // arguments_declared = argument_declared arguments_declared_more
    Nonterminal(nonterminal::ARGUMENT_DECLARED),
    Nonterminal(nonterminal::ARGUMENTS_DECLARED_MORE),
    // arguments_declared = (nothing)
    // arguments_declared_more = COMMA arguments_declared
    Terminal(kind::COMMA),
    Nonterminal(nonterminal::ARGUMENTS_DECLARED),
    // arguments_declared_more = (nothing)
    // argument_declared = any_name COLON type
    Nonterminal(nonterminal::ANY_NAME),
    Terminal(kind::COLON),
    Nonterminal(nonterminal::TYPE),
    // constant = CONST any_name constant_type ASSIGN expr SEMI
    Terminal(kind::CONST),
    Nonterminal(nonterminal::ANY_NAME),
    Nonterminal(nonterminal::CONSTANT_TYPE),
    Terminal(kind::ASSIGN),
    Nonterminal(nonterminal::EXPR),
    Terminal(kind::SEMI),
    // constant_type = COLON type
    Terminal(kind::COLON),
    Nonterminal(nonterminal::TYPE),
    // constant_type = (nothing)
    // alias = TYPE any_name ASSIGN type SEMI
    Terminal(kind::TYPE),
    Nonterminal(nonterminal::ANY_NAME),
    Terminal(kind::ASSIGN),
    Nonterminal(nonterminal::TYPE),
    Terminal(kind::SEMI),
    // structure = STRUCT any_name open_brace arguments_declared RBRACE
    Terminal(kind::STRUCT),
    Nonterminal(nonterminal::ANY_NAME),
    Nonterminal(nonterminal::OPEN_BRACE),
    Nonterminal(nonterminal::ARGUMENTS_DECLARED),
    Terminal(kind::RBRACE),
    // enumeration = ENUM any_name COLON type open_brace members RBRACE
    Terminal(kind::ENUM),
    Nonterminal(nonterminal::ANY_NAME),
    Terminal(kind::COLON),
    Nonterminal(nonterminal::TYPE),
    Nonterminal(nonterminal::OPEN_BRACE),
    Nonterminal(nonterminal::MEMBERS),
    Terminal(kind::RBRACE),
    // members = member members_more
    Nonterminal(nonterminal::MEMBER),
    Nonterminal(nonterminal::MEMBERS_MORE),
    // members = (nothing)
    // members_more = COMMA members
    Terminal(kind::COMMA),
    Nonterminal(nonterminal::MEMBERS),
    // members_more = (nothing)
    // member = any_name ASSIGN expr
    Nonterminal(nonterminal::ANY_NAME),
    Terminal(kind::ASSIGN),
    Nonterminal(nonterminal::EXPR),
    // proc = PROC any_name parameters open_brace proc_members parts RBRACE
    Terminal(kind::PROC),
    Nonterminal(nonterminal::ANY_NAME),
    Nonterminal(nonterminal::PARAMETERS),
    Nonterminal(nonterminal::OPEN_BRACE),
    Nonterminal(nonterminal::PROC_MEMBERS),
    Nonterminal(nonterminal::PARTS),
    Terminal(kind::RBRACE),
    // proc_members = proc_member proc_members
    Nonterminal(nonterminal::PROC_MEMBER),
    Nonterminal(nonterminal::PROC_MEMBERS),
    // proc_members = (nothing)
    // proc_member = any_name COLON end SEMI
    Nonterminal(nonterminal::ANY_NAME),
    Terminal(kind::COLON),
    Nonterminal(nonterminal::END),
    Terminal(kind::SEMI),
    // end = CHAN LT type GT direction
    Terminal(kind::CHAN),
    Terminal(kind::LT),
    Nonterminal(nonterminal::TYPE),
    Terminal(kind::GT),
    Nonterminal(nonterminal::DIRECTION),
    // direction = IN
    Terminal(kind::IN),
    // direction = OUT
    Terminal(kind::OUT),
    // parts = config parts_init_next
    Nonterminal(nonterminal::CONFIG),
    Nonterminal(nonterminal::PARTS_INIT_NEXT),
    // parts = init parts_config_next
    Nonterminal(nonterminal::INIT),
    Nonterminal(nonterminal::PARTS_CONFIG_NEXT),
    // parts = next parts_config_init
    Nonterminal(nonterminal::NEXT),
    Nonterminal(nonterminal::PARTS_CONFIG_INIT),
    // parts_init_next = init next
    Nonterminal(nonterminal::INIT),
    Nonterminal(nonterminal::NEXT),
    // parts_init_next = next init
    Nonterminal(nonterminal::NEXT),
    Nonterminal(nonterminal::INIT),
    // parts_config_next = config next
    Nonterminal(nonterminal::CONFIG),
    Nonterminal(nonterminal::NEXT),
    // parts_config_next = next config
    Nonterminal(nonterminal::NEXT),
    Nonterminal(nonterminal::CONFIG),
    // parts_config_init = config init
    Nonterminal(nonterminal::CONFIG),
    Nonterminal(nonterminal::INIT),
    // parts_config_init = init config
    Nonterminal(nonterminal::INIT),
    Nonterminal(nonterminal::CONFIG),
    // config = CONFIG LPAREN ends RPAREN LBRACE makings config_result RBRACE
    Terminal(kind::CONFIG),
    Terminal(kind::LPAREN),
    Nonterminal(nonterminal::ENDS),
    Terminal(kind::RPAREN),
    Terminal(kind::LBRACE),
    Nonterminal(nonterminal::MAKINGS),
    Nonterminal(nonterminal::CONFIG_RESULT),
    Terminal(kind::RBRACE),
    // ends = end_declared ends_more
    Nonterminal(nonterminal::END_DECLARED),
    Nonterminal(nonterminal::ENDS_MORE),
    // ends = (nothing)
    // ends_more = COMMA ends
    Terminal(kind::COMMA),
    Nonterminal(nonterminal::ENDS),
    // ends_more = (nothing)
    // end_declared = any_name COLON end
    Nonterminal(nonterminal::ANY_NAME),
    Terminal(kind::COLON),
    Nonterminal(nonterminal::END),
    // makings = channel makings
    Nonterminal(nonterminal::CHANNEL),
    Nonterminal(nonterminal::MAKINGS),
    // makings = spawn makings
    Nonterminal(nonterminal::SPAWN),
    Nonterminal(nonterminal::MAKINGS),
    // makings = (nothing)
    // channel = LET LPAREN any_name COMMA any_name RPAREN ASSIGN channel_made
    Terminal(kind::LET),
    Terminal(kind::LPAREN),
    Nonterminal(nonterminal::ANY_NAME),
    Terminal(kind::COMMA),
    Nonterminal(nonterminal::ANY_NAME),
    Terminal(kind::RPAREN),
    Terminal(kind::ASSIGN),
    Nonterminal(nonterminal::CHANNEL_MADE),
    // channel_made = CHAN LT type channel_depth GT LPAREN STRING channel_end
    Terminal(kind::CHAN),
    Terminal(kind::LT),
    Nonterminal(nonterminal::TYPE),
    Nonterminal(nonterminal::CHANNEL_DEPTH),
    Terminal(kind::GT),
    Terminal(kind::LPAREN),
    Terminal(kind::STRING),
    Nonterminal(nonterminal::CHANNEL_END),
    // channel_end = RPAREN SEMI
    Terminal(kind::RPAREN),
    Terminal(kind::SEMI),
    // channel_depth = COMMA arg
    Terminal(kind::COMMA),
    Nonterminal(nonterminal::ARG),
    // channel_depth = (nothing)
    // spawn = SPAWN any_name spawn_args LPAREN names RPAREN SEMI
    Terminal(kind::SPAWN),
    Nonterminal(nonterminal::ANY_NAME),
    Nonterminal(nonterminal::SPAWN_ARGS),
    Terminal(kind::LPAREN),
    Nonterminal(nonterminal::NAMES),
    Terminal(kind::RPAREN),
    Terminal(kind::SEMI),
    // spawn_args = open_angle arg args_more GT
    Nonterminal(nonterminal::OPEN_ANGLE),
    Nonterminal(nonterminal::ARG),
    Nonterminal(nonterminal::ARGS_MORE),
    Terminal(kind::GT),
    // spawn_args = (nothing)
    // config_result = LPAREN names RPAREN
    Terminal(kind::LPAREN),
    Nonterminal(nonterminal::NAMES),
    Terminal(kind::RPAREN),
    // config_result = (nothing)
    // names = any_name names_more
    Nonterminal(nonterminal::ANY_NAME),
    Nonterminal(nonterminal::NAMES_MORE),
    // names = (nothing)
    // names_more = COMMA names
    Terminal(kind::COMMA),
    Nonterminal(nonterminal::NAMES),
    // names_more = (nothing)
    // init = INIT block
    Terminal(kind::INIT),
    Nonterminal(nonterminal::BLOCK),
    // next = NEXT LPAREN any_name COLON type RPAREN block
    Terminal(kind::NEXT),
    Terminal(kind::LPAREN),
    Nonterminal(nonterminal::ANY_NAME),
    Terminal(kind::COLON),
    Nonterminal(nonterminal::TYPE),
    Terminal(kind::RPAREN),
    Nonterminal(nonterminal::BLOCK),
    // args_more = COMMA arg args_more
    Terminal(kind::COMMA),
    Nonterminal(nonterminal::ARG),
    Nonterminal(nonterminal::ARGS_MORE),
    // args_more = (nothing)
    // arg = NUMBER
    Terminal(kind::NUMBER),
    // arg = base_keyword type_tail COLON signed
    Nonterminal(nonterminal::BASE_KEYWORD),
    Nonterminal(nonterminal::TYPE_TAIL),
    Terminal(kind::COLON),
    Nonterminal(nonterminal::SIGNED),
    // arg = any_name arg_name
    Nonterminal(nonterminal::ANY_NAME),
    Nonterminal(nonterminal::ARG_NAME),
    // arg = LBRACE expr RBRACE
    Terminal(kind::LBRACE),
    Nonterminal(nonterminal::EXPR),
    Terminal(kind::RBRACE),
    // arg_name = COLON signed
    Terminal(kind::COLON),
    Nonterminal(nonterminal::SIGNED),
    // arg_name = name_size type_tail COLON signed
    Nonterminal(nonterminal::NAME_SIZE),
    Nonterminal(nonterminal::TYPE_TAIL),
    Terminal(kind::COLON),
    Nonterminal(nonterminal::SIGNED),
    // arg_name = (nothing)
    // signed = MINUS NUMBER
    Terminal(kind::MINUS),
    Terminal(kind::NUMBER),
    // signed = NUMBER
    Terminal(kind::NUMBER),
    // type = base type_tail
    Nonterminal(nonterminal::BASE),
    Nonterminal(nonterminal::TYPE_TAIL),
    // base = base_keyword
    Nonterminal(nonterminal::BASE_KEYWORD),
    // base = any_name
    Nonterminal(nonterminal::ANY_NAME),
    // base = LPAREN types RPAREN
    Terminal(kind::LPAREN),
    Nonterminal(nonterminal::TYPES),
    Terminal(kind::RPAREN),
    // base_keyword = UNSIGNED
    Terminal(kind::UNSIGNED),
    // base_keyword = SIGNED
    Terminal(kind::SIGNED),
    // base_keyword = WIDE LBRACKET expr RBRACKET
    Terminal(kind::WIDE),
    Terminal(kind::LBRACKET),
    Nonterminal(nonterminal::EXPR),
    Terminal(kind::RBRACKET),
    // base_keyword = BOOL
    Terminal(kind::BOOL),
    // type_tail = size type_tail
    Nonterminal(nonterminal::SIZE),
    Nonterminal(nonterminal::TYPE_TAIL),
    // type_tail = (nothing)
    // size = LBRACKET expr RBRACKET
    Terminal(kind::LBRACKET),
    Nonterminal(nonterminal::EXPR),
    Terminal(kind::RBRACKET),
    // name_size = LBRACKET expr RBRACKET
    Terminal(kind::LBRACKET),
    Nonterminal(nonterminal::EXPR),
    Terminal(kind::RBRACKET),
    // types = type types_more
    Nonterminal(nonterminal::TYPE),
    Nonterminal(nonterminal::TYPES_MORE),
    // types = (nothing)
    // types_more = COMMA types
    Terminal(kind::COMMA),
    Nonterminal(nonterminal::TYPES),
    // types_more = (nothing)
    // block = LBRACE statements RBRACE
    Terminal(kind::LBRACE),
    Nonterminal(nonterminal::STATEMENTS),
    Terminal(kind::RBRACE),
    // statements = let statements
    Nonterminal(nonterminal::LET),
    Nonterminal(nonterminal::STATEMENTS),
    // statements = expr statement_end
    Nonterminal(nonterminal::EXPR),
    Nonterminal(nonterminal::STATEMENT_END),
    // statements = (nothing)
    // statement_end = bare statements
    Nonterminal(nonterminal::BARE),
    Nonterminal(nonterminal::STATEMENTS),
    // statement_end = (nothing)
    // bare = SEMI
    Terminal(kind::SEMI),
    // let = LET let_pattern ASSIGN expr SEMI
    Terminal(kind::LET),
    Nonterminal(nonterminal::LET_PATTERN),
    Terminal(kind::ASSIGN),
    Nonterminal(nonterminal::EXPR),
    Terminal(kind::SEMI),
    // let_pattern = plain_pattern let_type
    Nonterminal(nonterminal::PLAIN_PATTERN),
    Nonterminal(nonterminal::LET_TYPE),
    // let_pattern = any_name let_name
    Nonterminal(nonterminal::ANY_NAME),
    Nonterminal(nonterminal::LET_NAME),
    // let_name = PATH any_name let_type
    Terminal(kind::PATH),
    Nonterminal(nonterminal::ANY_NAME),
    Nonterminal(nonterminal::LET_TYPE),
    // let_name = name_size type_tail COLON signed let_type
    Nonterminal(nonterminal::NAME_SIZE),
    Nonterminal(nonterminal::TYPE_TAIL),
    Terminal(kind::COLON),
    Nonterminal(nonterminal::SIGNED),
    Nonterminal(nonterminal::LET_TYPE),
    // let_name = COLON let_colon
    Terminal(kind::COLON),
    Nonterminal(nonterminal::LET_COLON),
    // let_name = (nothing)
    // let_colon = signed let_type
    Nonterminal(nonterminal::SIGNED),
    Nonterminal(nonterminal::LET_TYPE),
    // let_colon = type
    Nonterminal(nonterminal::TYPE),
    // let_type = COLON type
    Terminal(kind::COLON),
    Nonterminal(nonterminal::TYPE),
    // let_type = (nothing)
    // pattern = plain_pattern
    Nonterminal(nonterminal::PLAIN_PATTERN),
    // pattern = any_name pattern_name
    Nonterminal(nonterminal::ANY_NAME),
    Nonterminal(nonterminal::PATTERN_NAME),
    // plain_pattern = WILD
    Terminal(kind::WILD),
    // plain_pattern = TRUE
    Terminal(kind::TRUE),
    // plain_pattern = FALSE
    Terminal(kind::FALSE),
    // plain_pattern = base_keyword type_tail COLON signed
    Nonterminal(nonterminal::BASE_KEYWORD),
    Nonterminal(nonterminal::TYPE_TAIL),
    Terminal(kind::COLON),
    Nonterminal(nonterminal::SIGNED),
    // plain_pattern = LPAREN patterns RPAREN
    Terminal(kind::LPAREN),
    Nonterminal(nonterminal::PATTERNS),
    Terminal(kind::RPAREN),
    // pattern_name = PATH any_name
    Terminal(kind::PATH),
    Nonterminal(nonterminal::ANY_NAME),
    // pattern_name = COLON signed
    Terminal(kind::COLON),
    Nonterminal(nonterminal::SIGNED),
    // pattern_name = name_size type_tail COLON signed
    Nonterminal(nonterminal::NAME_SIZE),
    Nonterminal(nonterminal::TYPE_TAIL),
    Terminal(kind::COLON),
    Nonterminal(nonterminal::SIGNED),
    // pattern_name = (nothing)
    // patterns = pattern patterns_more
    Nonterminal(nonterminal::PATTERN),
    Nonterminal(nonterminal::PATTERNS_MORE),
    // patterns = (nothing)
    // patterns_more = COMMA patterns
    Terminal(kind::COMMA),
    Nonterminal(nonterminal::PATTERNS),
    // patterns_more = (nothing)
    // expr = operand operands
    Nonterminal(nonterminal::OPERAND),
    Nonterminal(nonterminal::OPERANDS),
    // operands = binary operand operands
    Nonterminal(nonterminal::BINARY),
    Nonterminal(nonterminal::OPERAND),
    Nonterminal(nonterminal::OPERANDS),
    // operands = (nothing)
    // binary = STAR
    Terminal(kind::STAR),
    // binary = SLASH
    Terminal(kind::SLASH),
    // binary = PERCENT
    Terminal(kind::PERCENT),
    // binary = PLUS
    Terminal(kind::PLUS),
    // binary = MINUS
    Terminal(kind::MINUS),
    // binary = CONCAT
    Terminal(kind::CONCAT),
    // binary = SHL
    Terminal(kind::SHL),
    // binary = SHR
    Terminal(kind::SHR),
    // binary = AMP
    Terminal(kind::AMP),
    // binary = CARET
    Terminal(kind::CARET),
    // binary = PIPE
    Terminal(kind::PIPE),
    // binary = EQ
    Terminal(kind::EQ),
    // binary = NE
    Terminal(kind::NE),
    // binary = LT
    Terminal(kind::LT),
    // binary = LE
    Terminal(kind::LE),
    // binary = GT
    Terminal(kind::GT),
    // binary = GE
    Terminal(kind::GE),
    // binary = ANDAND
    Terminal(kind::ANDAND),
    // binary = OROR
    Terminal(kind::OROR),
    // operand = prefixed casts
    Nonterminal(nonterminal::PREFIXED),
    Nonterminal(nonterminal::CASTS),
    // prefixed = MINUS prefixed
    Terminal(kind::MINUS),
    Nonterminal(nonterminal::PREFIXED),
    // prefixed = BANG prefixed
    Terminal(kind::BANG),
    Nonterminal(nonterminal::PREFIXED),
    // prefixed = atom posts
    Nonterminal(nonterminal::ATOM),
    Nonterminal(nonterminal::POSTS),
    // casts = cast casts
    Nonterminal(nonterminal::CAST),
    Nonterminal(nonterminal::CASTS),
    // casts = (nothing)
    // cast = AS type
    Terminal(kind::AS),
    Nonterminal(nonterminal::TYPE),
    // posts = LBRACKET expr index_end posts
    Terminal(kind::LBRACKET),
    Nonterminal(nonterminal::EXPR),
    Nonterminal(nonterminal::INDEX_END),
    Nonterminal(nonterminal::POSTS),
    // posts = DOT part posts
    Terminal(kind::DOT),
    Nonterminal(nonterminal::PART),
    Nonterminal(nonterminal::POSTS),
    // posts = (nothing)
    // index_end = RBRACKET
    Terminal(kind::RBRACKET),
    // index_end = COLON expr RBRACKET
    Terminal(kind::COLON),
    Nonterminal(nonterminal::EXPR),
    Terminal(kind::RBRACKET),
    // index_end = PLUSCOLON type RBRACKET
    Terminal(kind::PLUSCOLON),
    Nonterminal(nonterminal::TYPE),
    Terminal(kind::RBRACKET),
    // part = any_name
    Nonterminal(nonterminal::ANY_NAME),
    // part = NUMBER
    Terminal(kind::NUMBER),
    // atom = NUMBER
    Terminal(kind::NUMBER),
    // atom = base_keyword type_tail COLON typed
    Nonterminal(nonterminal::BASE_KEYWORD),
    Nonterminal(nonterminal::TYPE_TAIL),
    Terminal(kind::COLON),
    Nonterminal(nonterminal::TYPED),
    // atom = alias_name type_tail COLON typed
    Nonterminal(nonterminal::ALIAS_NAME),
    Nonterminal(nonterminal::TYPE_TAIL),
    Terminal(kind::COLON),
    Nonterminal(nonterminal::TYPED),
    // atom = elements
    Nonterminal(nonterminal::ELEMENTS),
    // atom = TRUE
    Terminal(kind::TRUE),
    // atom = FALSE
    Terminal(kind::FALSE),
    // atom = NAME name_tail
    Terminal(kind::NAME),
    Nonterminal(nonterminal::NAME_TAIL),
    // atom = FUNNAME function_tail
    Terminal(kind::FUNNAME),
    Nonterminal(nonterminal::FUNCTION_TAIL),
    // atom = STRUCTNAME struct_tail
    Terminal(kind::STRUCTNAME),
    Nonterminal(nonterminal::STRUCT_TAIL),
    // atom = BOTHNAME both_tail
    Terminal(kind::BOTHNAME),
    Nonterminal(nonterminal::BOTH_TAIL),
    // atom = LPAREN parenthesis
    Terminal(kind::LPAREN),
    Nonterminal(nonterminal::PARENTHESIS),
    // atom = block
    Nonterminal(nonterminal::BLOCK),
    // atom = if
    Nonterminal(nonterminal::IF),
    // atom = match
    Nonterminal(nonterminal::MATCH),
    // atom = for
    Nonterminal(nonterminal::FOR),
    // alias_name = TYPENAME
    Terminal(kind::TYPENAME),
    // typed = signed
    Nonterminal(nonterminal::SIGNED),
    // typed = elements
    Nonterminal(nonterminal::ELEMENTS),
    // name_tail = PATH any_name
    Terminal(kind::PATH),
    Nonterminal(nonterminal::ANY_NAME),
    // name_tail = call
    Nonterminal(nonterminal::CALL),
    // name_tail = (nothing)
    // function_tail = PATH any_name
    Terminal(kind::PATH),
    Nonterminal(nonterminal::ANY_NAME),
    // function_tail = call
    Nonterminal(nonterminal::CALL),
    // function_tail = call_with_args
    Nonterminal(nonterminal::CALL_WITH_ARGS),
    // function_tail = (nothing)
    // struct_tail = PATH any_name
    Terminal(kind::PATH),
    Nonterminal(nonterminal::ANY_NAME),
    // struct_tail = call
    Nonterminal(nonterminal::CALL),
    // struct_tail = fields
    Nonterminal(nonterminal::FIELDS),
    // struct_tail = (nothing)
    // both_tail = PATH any_name
    Terminal(kind::PATH),
    Nonterminal(nonterminal::ANY_NAME),
    // both_tail = call
    Nonterminal(nonterminal::CALL),
    // both_tail = call_with_args
    Nonterminal(nonterminal::CALL_WITH_ARGS),
    // both_tail = fields
    Nonterminal(nonterminal::FIELDS),
    // both_tail = (nothing)
    // call = LPAREN exprs RPAREN
    Terminal(kind::LPAREN),
    Nonterminal(nonterminal::EXPRS),
    Terminal(kind::RPAREN),
    // call_with_args = ARGS arg args_more GT LPAREN exprs RPAREN
    Terminal(kind::ARGS),
    Nonterminal(nonterminal::ARG),
    Nonterminal(nonterminal::ARGS_MORE),
    Terminal(kind::GT),
    Terminal(kind::LPAREN),
    Nonterminal(nonterminal::EXPRS),
    Terminal(kind::RPAREN),
    // exprs = expr exprs_more
    Nonterminal(nonterminal::EXPR),
    Nonterminal(nonterminal::EXPRS_MORE),
    // exprs = (nothing)
    // exprs_more = COMMA exprs
    Terminal(kind::COMMA),
    Nonterminal(nonterminal::EXPRS),
    // exprs_more = (nothing)
    // fields = FIELDS field_list RBRACE
    Terminal(kind::FIELDS),
    Nonterminal(nonterminal::FIELD_LIST),
    Terminal(kind::RBRACE),
    // field_list = any_name field_value field_more
    Nonterminal(nonterminal::ANY_NAME),
    Nonterminal(nonterminal::FIELD_VALUE),
    Nonterminal(nonterminal::FIELD_MORE),
    // field_list = REST expr
    Terminal(kind::REST),
    Nonterminal(nonterminal::EXPR),
    // field_list = (nothing)
    // field_value = COLON expr
    Terminal(kind::COLON),
    Nonterminal(nonterminal::EXPR),
    // field_value = (nothing)
    // field_more = COMMA field_list
    Terminal(kind::COMMA),
    Nonterminal(nonterminal::FIELD_LIST),
    // field_more = (nothing)
    // parenthesis = RPAREN
    Terminal(kind::RPAREN),
    // parenthesis = expr parenthesis_end
    Nonterminal(nonterminal::EXPR),
    Nonterminal(nonterminal::PARENTHESIS_END),
    // parenthesis_end = RPAREN
    Terminal(kind::RPAREN),
    // parenthesis_end = COMMA exprs RPAREN
    Terminal(kind::COMMA),
    Nonterminal(nonterminal::EXPRS),
    Terminal(kind::RPAREN),
    // elements = LBRACKET expr elements_more RBRACKET
    Terminal(kind::LBRACKET),
    Nonterminal(nonterminal::EXPR),
    Nonterminal(nonterminal::ELEMENTS_MORE),
    Terminal(kind::RBRACKET),
    // elements_more = COMMA elements_next
    Terminal(kind::COMMA),
    Nonterminal(nonterminal::ELEMENTS_NEXT),
    // elements_more = (nothing)
    // elements_next = expr elements_more
    Nonterminal(nonterminal::EXPR),
    Nonterminal(nonterminal::ELEMENTS_MORE),
    // elements_next = DOTS elements_end
    Terminal(kind::DOTS),
    Nonterminal(nonterminal::ELEMENTS_END),
    // elements_next = (nothing)
    // elements_end = COMMA
    Terminal(kind::COMMA),
    // elements_end = (nothing)
    // if = IF expr headed_block ELSE else
    Terminal(kind::IF),
    Nonterminal(nonterminal::EXPR),
    Nonterminal(nonterminal::HEADED_BLOCK),
    Terminal(kind::ELSE),
    Nonterminal(nonterminal::ELSE),
    // else = block
    Nonterminal(nonterminal::BLOCK),
    // else = if
    Nonterminal(nonterminal::IF),
    // match = MATCH expr LBRACE arms RBRACE
    Terminal(kind::MATCH),
    Nonterminal(nonterminal::EXPR),
    Terminal(kind::LBRACE),
    Nonterminal(nonterminal::ARMS),
    Terminal(kind::RBRACE),
    // arms = arm arms_more
    Nonterminal(nonterminal::ARM),
    Nonterminal(nonterminal::ARMS_MORE),
    // arms = (nothing)
    // arms_more = COMMA arms
    Terminal(kind::COMMA),
    Nonterminal(nonterminal::ARMS),
    // arms_more = (nothing)
    // arm = pattern alternatives DARROW expr
    Nonterminal(nonterminal::PATTERN),
    Nonterminal(nonterminal::ALTERNATIVES),
    Terminal(kind::DARROW),
    Nonterminal(nonterminal::EXPR),
    // alternatives = PIPE pattern alternatives
    Terminal(kind::PIPE),
    Nonterminal(nonterminal::PATTERN),
    Nonterminal(nonterminal::ALTERNATIVES),
    // alternatives = (nothing)
    // for = FOR LPAREN pattern COMMA pattern RPAREN for_type for_range
    Terminal(kind::FOR),
    Terminal(kind::LPAREN),
    Nonterminal(nonterminal::PATTERN),
    Terminal(kind::COMMA),
    Nonterminal(nonterminal::PATTERN),
    Terminal(kind::RPAREN),
    Nonterminal(nonterminal::FOR_TYPE),
    Nonterminal(nonterminal::FOR_RANGE),
    // for_type = COLON type
    Terminal(kind::COLON),
    Nonterminal(nonterminal::TYPE),
    // for_type = (nothing)
    // for_range = IN expr REST expr headed_block LPAREN expr RPAREN
    Terminal(kind::IN),
    Nonterminal(nonterminal::EXPR),
    Terminal(kind::REST),
    Nonterminal(nonterminal::EXPR),
    Nonterminal(nonterminal::HEADED_BLOCK),
    Terminal(kind::LPAREN),
    Nonterminal(nonterminal::EXPR),
    Terminal(kind::RPAREN),
    // headed_block = LBRACE statements RBRACE
    Terminal(kind::LBRACE),
    Nonterminal(nonterminal::STATEMENTS),
    Terminal(kind::RBRACE),
];

/// The productions, with the kinds before which each is taken.
pub static PRODUCTIONS: [Production; 260] = [
    // module = items
    Production {
        head: nonterminal::MODULE,
        first: 0,
        end: 1,
        chosen: 0x2120018000001108000,
    },
    // items = item items
    Production {
        head: nonterminal::ITEMS,
        first: 1,
        end: 3,
        chosen: 0x120018000001108000,
    },
    // items = (nothing)
    Production {
        head: nonterminal::ITEMS,
        first: 3,
        end: 3,
        chosen: 0x2000000000000000000,
    },
    // item = PUB definition
    Production {
        head: nonterminal::ITEM,
        first: 3,
        end: 5,
        chosen: 0x10000000000000,
    },
    // item = definition
    Production {
        head: nonterminal::ITEM,
        first: 5,
        end: 6,
        chosen: 0x120008000001108000,
    },
    // definition = function
    Production {
        head: nonterminal::DEFINITION,
        first: 6,
        end: 7,
        chosen: 0x1000000,
    },
    // definition = proc
    Production {
        head: nonterminal::DEFINITION,
        first: 7,
        end: 8,
        chosen: 0x8000000000000,
    },
    // definition = constant
    Production {
        head: nonterminal::DEFINITION,
        first: 8,
        end: 9,
        chosen: 0x8000,
    },
    // definition = alias
    Production {
        head: nonterminal::DEFINITION,
        first: 9,
        end: 10,
        chosen: 0x100000000000000000,
    },
    // definition = structure
    Production {
        head: nonterminal::DEFINITION,
        first: 10,
        end: 11,
        chosen: 0x20000000000000000,
    },
    // definition = enumeration
    Production {
        head: nonterminal::DEFINITION,
        first: 11,
        end: 12,
        chosen: 0x100000,
    },
    // any_name = NAME
    Production {
        head: nonterminal::ANY_NAME,
        first: 12,
        end: 13,
        chosen: 0x10000000000,
    },
    // any_name = TYPENAME
    Production {
        head: nonterminal::ANY_NAME,
        first: 13,
        end: 14,
        chosen: 0x200000000000000000,
    },
    // any_name = FUNNAME
    Production {
        head: nonterminal::ANY_NAME,
        first: 14,
        end: 15,
        chosen: 0x4000000,
    },
    // any_name = STRUCTNAME
    Production {
        head: nonterminal::ANY_NAME,
        first: 15,
        end: 16,
        chosen: 0x40000000000000000,
    },
    // any_name = BOTHNAME
    Production {
        head: nonterminal::ANY_NAME,
        first: 16,
        end: 17,
        chosen: 0x100,
    },
    // open_brace = LBRACE
    Production {
        head: nonterminal::OPEN_BRACE,
        first: 17,
        end: 18,
        chosen: 0x100000000,
    },
    // open_brace = FIELDS
    Production {
        head: nonterminal::OPEN_BRACE,
        first: 18,
        end: 19,
        chosen: 0x800000,
    },
    // open_angle = LT
    Production {
        head: nonterminal::OPEN_ANGLE,
        first: 19,
        end: 20,
        chosen: 0x2000000000,
    },
    // open_angle = ARGS
    Production {
        head: nonterminal::OPEN_ANGLE,
        first: 20,
        end: 21,
        chosen: 0x4,
    },
    // function = FN any_name parameters LPAREN arguments_declared RPAREN result_type block
    Production {
        head: nonterminal::FUNCTION,
        first: 21,
        end: 29,
        chosen: 0x1000000,
    },
    // result_type = ARROW type
    Production {
        head: nonterminal::RESULT_TYPE,
        first: 29,
        end: 31,
        chosen: 0x8,
    },
    // result_type = (nothing)
    Production {
        head: nonterminal::RESULT_TYPE,
        first: 31,
        end: 31,
        chosen: 0x100000000,
    },
    // parameters = open_angle parameter parameters_more GT
    Production {
        head: nonterminal::PARAMETERS,
        first: 31,
        end: 35,
        chosen: 0x2000000004,
    },
    // parameters = (nothing)
    Production {
        head: nonterminal::PARAMETERS,
        first: 35,
        end: 35,
        chosen: 0x1100800000,
    },
    // parameters_more = COMMA parameter parameters_more
    Production {
        head: nonterminal::PARAMETERS_MORE,
        first: 35,
        end: 38,
        chosen: 0x1000,
    },
    // parameters_more = (nothing)
    Production {
        head: nonterminal::PARAMETERS_MORE,
        first: 38,
        end: 38,
        chosen: 0x10000000,
    },
    // parameter = any_name COLON type parameter_default
    Production {
        head: nonterminal::PARAMETER,
        first: 38,
        end: 42,
        chosen: 0x240000010004000100,
    },
    // parameter_default = ASSIGN LBRACE expr RBRACE
    Production {
        head: nonterminal::PARAMETER_DEFAULT,
        first: 42,
        end: 46,
        chosen: 0x20,
    },
    // parameter_default = (nothing)
    Production {
        head: nonterminal::PARAMETER_DEFAULT,
        first: 46,
        end: 46,
        chosen: 0x10001000,
    },
    // arguments_declared = argument_declared arguments_declared_more
    Production {
        head: nonterminal::ARGUMENTS_DECLARED,
        first: 46,
        end: 48,
        chosen: 0x240000010004000100,
    },
    // arguments_declared = (nothing)
    Production {
        head: nonterminal::ARGUMENTS_DECLARED,
        first: 48,
        end: 48,
        chosen: 0x120000000000000,
    },
    // arguments_declared_more = COMMA arguments_declared
    Production {
        head: nonterminal::ARGUMENTS_DECLARED_MORE,
        first: 48,
        end: 50,
        chosen: 0x1000,
    },
    // arguments_declared_more = (nothing)
    Production {
        head: nonterminal::ARGUMENTS_DECLARED_MORE,
        first: 50,
        end: 50,
        chosen: 0x120000000000000,
    },
    // argument_declared = any_name COLON type
    Production {
        head: nonterminal::ARGUMENT_DECLARED,
        first: 50,
        end: 53,
        chosen: 0x240000010004000100,
    },
    // constant = CONST any_name constant_type ASSIGN expr SEMI
    Production {
        head: nonterminal::CONSTANT,
        first: 53,
        end: 59,
        chosen: 0x8000,
    },
    // constant_type = COLON type
    Production {
        head: nonterminal::CONSTANT_TYPE,
        first: 59,
        end: 61,
        chosen: 0x800,
    },
    // constant_type = (nothing)
    Production {
        head: nonterminal::CONSTANT_TYPE,
        first: 61,
        end: 61,
        chosen: 0x20,
    },
    // alias = TYPE any_name ASSIGN type SEMI
    Production {
        head: nonterminal::ALIAS,
        first: 61,
        end: 66,
        chosen: 0x100000000000000000,
    },
    // structure = STRUCT any_name open_brace arguments_declared RBRACE
    Production {
        head: nonterminal::STRUCTURE,
        first: 66,
        end: 71,
        chosen: 0x20000000000000000,
    },
    // enumeration = ENUM any_name COLON type open_brace members RBRACE
    Production {
        head: nonterminal::ENUMERATION,
        first: 71,
        end: 78,
        chosen: 0x100000,
    },
    // members = member members_more
    Production {
        head: nonterminal::MEMBERS,
        first: 78,
        end: 80,
        chosen: 0x240000010004000100,
    },
    // members = (nothing)
    Production {
        head: nonterminal::MEMBERS,
        first: 80,
        end: 80,
        chosen: 0x20000000000000,
    },
    // members_more = COMMA members
    Production {
        head: nonterminal::MEMBERS_MORE,
        first: 80,
        end: 82,
        chosen: 0x1000,
    },
    // members_more = (nothing)
    Production {
        head: nonterminal::MEMBERS_MORE,
        first: 82,
        end: 82,
        chosen: 0x20000000000000,
    },
    // member = any_name ASSIGN expr
    Production {
        head: nonterminal::MEMBER,
        first: 82,
        end: 85,
        chosen: 0x240000010004000100,
    },
    // proc = PROC any_name parameters open_brace proc_members parts RBRACE
    Production {
        head: nonterminal::PROC,
        first: 85,
        end: 92,
        chosen: 0x8000000000000,
    },
    // proc_members = proc_member proc_members
    Production {
        head: nonterminal::PROC_MEMBERS,
        first: 92,
        end: 94,
        chosen: 0x240000010004000100,
    },
    // proc_members = (nothing)
    Production {
        head: nonterminal::PROC_MEMBERS,
        first: 94,
        end: 94,
        chosen: 0x40080004000,
    },
    // proc_member = any_name COLON end SEMI
    Production {
        head: nonterminal::PROC_MEMBER,
        first: 94,
        end: 98,
        chosen: 0x240000010004000100,
    },
    // end = CHAN LT type GT direction
    Production {
        head: nonterminal::END,
        first: 98,
        end: 103,
        chosen: 0x400,
    },
    // direction = IN
    Production {
        head: nonterminal::DIRECTION,
        first: 103,
        end: 104,
        chosen: 0x40000000,
    },
    // direction = OUT
    Production {
        head: nonterminal::DIRECTION,
        first: 104,
        end: 105,
        chosen: 0x200000000000,
    },
    // parts = config parts_init_next
    Production {
        head: nonterminal::PARTS,
        first: 105,
        end: 107,
        chosen: 0x4000,
    },
    // parts = init parts_config_next
    Production {
        head: nonterminal::PARTS,
        first: 107,
        end: 109,
        chosen: 0x80000000,
    },
    // parts = next parts_config_init
    Production {
        head: nonterminal::PARTS,
        first: 109,
        end: 111,
        chosen: 0x40000000000,
    },
    // parts_init_next = init next
    Production {
        head: nonterminal::PARTS_INIT_NEXT,
        first: 111,
        end: 113,
        chosen: 0x80000000,
    },
    // parts_init_next = next init
    Production {
        head: nonterminal::PARTS_INIT_NEXT,
        first: 113,
        end: 115,
        chosen: 0x40000000000,
    },
    // parts_config_next = config next
    Production {
        head: nonterminal::PARTS_CONFIG_NEXT,
        first: 115,
        end: 117,
        chosen: 0x4000,
    },
    // parts_config_next = next config
    Production {
        head: nonterminal::PARTS_CONFIG_NEXT,
        first: 117,
        end: 119,
        chosen: 0x40000000000,
    },
    // parts_config_init = config init
    Production {
        head: nonterminal::PARTS_CONFIG_INIT,
        first: 119,
        end: 121,
        chosen: 0x4000,
    },
    // parts_config_init = init config
    Production {
        head: nonterminal::PARTS_CONFIG_INIT,
        first: 121,
        end: 123,
        chosen: 0x80000000,
    },
    // config = CONFIG LPAREN ends RPAREN LBRACE makings config_result RBRACE
    Production {
        head: nonterminal::CONFIG,
        first: 123,
        end: 131,
        chosen: 0x4000,
    },
    // ends = end_declared ends_more
    Production {
        head: nonterminal::ENDS,
        first: 131,
        end: 133,
        chosen: 0x240000010004000100,
    },
    // ends = (nothing)
    Production {
        head: nonterminal::ENDS,
        first: 133,
        end: 133,
        chosen: 0x100000000000000,
    },
    // ends_more = COMMA ends
    Production {
        head: nonterminal::ENDS_MORE,
        first: 133,
        end: 135,
        chosen: 0x1000,
    },
    // ends_more = (nothing)
    Production {
        head: nonterminal::ENDS_MORE,
        first: 135,
        end: 135,
        chosen: 0x100000000000000,
    },
    // end_declared = any_name COLON end
    Production {
        head: nonterminal::END_DECLARED,
        first: 135,
        end: 138,
        chosen: 0x240000010004000100,
    },
    // makings = channel makings
    Production {
        head: nonterminal::MAKINGS,
        first: 138,
        end: 140,
        chosen: 0x800000000,
    },
    // makings = spawn makings
    Production {
        head: nonterminal::MAKINGS,
        first: 140,
        end: 142,
        chosen: 0x4000000000000000,
    },
    // makings = (nothing)
    Production {
        head: nonterminal::MAKINGS,
        first: 142,
        end: 142,
        chosen: 0x20001000000000,
    },
    // channel = LET LPAREN any_name COMMA any_name RPAREN ASSIGN channel_made
    Production {
        head: nonterminal::CHANNEL,
        first: 142,
        end: 150,
        chosen: 0x800000000,
    },
    // channel_made = CHAN LT type channel_depth GT LPAREN STRING channel_end
    Production {
        head: nonterminal::CHANNEL_MADE,
        first: 150,
        end: 158,
        chosen: 0x400,
    },
    // channel_end = RPAREN SEMI
    Production {
        head: nonterminal::CHANNEL_END,
        first: 158,
        end: 160,
        chosen: 0x100000000000000,
    },
    // channel_depth = COMMA arg
    Production {
        head: nonterminal::CHANNEL_DEPTH,
        first: 160,
        end: 162,
        chosen: 0x1000,
    },
    // channel_depth = (nothing)
    Production {
        head: nonterminal::CHANNEL_DEPTH,
        first: 162,
        end: 162,
        chosen: 0x10000000,
    },
    // spawn = SPAWN any_name spawn_args LPAREN names RPAREN SEMI
    Production {
        head: nonterminal::SPAWN,
        first: 162,
        end: 169,
        chosen: 0x4000000000000000,
    },
    // spawn_args = open_angle arg args_more GT
    Production {
        head: nonterminal::SPAWN_ARGS,
        first: 169,
        end: 173,
        chosen: 0x2000000004,
    },
    // spawn_args = (nothing)
    Production {
        head: nonterminal::SPAWN_ARGS,
        first: 173,
        end: 173,
        chosen: 0x1000000000,
    },
    // config_result = LPAREN names RPAREN
    Production {
        head: nonterminal::CONFIG_RESULT,
        first: 173,
        end: 176,
        chosen: 0x1000000000,
    },
    // config_result = (nothing)
    Production {
        head: nonterminal::CONFIG_RESULT,
        first: 176,
        end: 176,
        chosen: 0x20000000000000,
    },
    // names = any_name names_more
    Production {
        head: nonterminal::NAMES,
        first: 176,
        end: 178,
        chosen: 0x240000010004000100,
    },
    // names = (nothing)
    Production {
        head: nonterminal::NAMES,
        first: 178,
        end: 178,
        chosen: 0x100000000000000,
    },
    // names_more = COMMA names
    Production {
        head: nonterminal::NAMES_MORE,
        first: 178,
        end: 180,
        chosen: 0x1000,
    },
    // names_more = (nothing)
    Production {
        head: nonterminal::NAMES_MORE,
        first: 180,
        end: 180,
        chosen: 0x100000000000000,
    },
    // init = INIT block
    Production {
        head: nonterminal::INIT,
        first: 180,
        end: 182,
        chosen: 0x80000000,
    },
    // next = NEXT LPAREN any_name COLON type RPAREN block
    Production {
        head: nonterminal::NEXT,
        first: 182,
        end: 189,
        chosen: 0x40000000000,
    },
    // args_more = COMMA arg args_more
    Production {
        head: nonterminal::ARGS_MORE,
        first: 189,
        end: 192,
        chosen: 0x1000,
    },
    // args_more = (nothing)
    Production {
        head: nonterminal::ARGS_MORE,
        first: 192,
        end: 192,
        chosen: 0x10000000,
    },
    // arg = NUMBER
    Production {
        head: nonterminal::ARG,
        first: 192,
        end: 193,
        chosen: 0x80000000000,
    },
    // arg = base_keyword type_tail COLON signed
    Production {
        head: nonterminal::ARG,
        first: 193,
        end: 197,
        chosen: 0xc01000000000000080,
    },
    // arg = any_name arg_name
    Production {
        head: nonterminal::ARG,
        first: 197,
        end: 199,
        chosen: 0x240000010004000100,
    },
    // arg = LBRACE expr RBRACE
    Production {
        head: nonterminal::ARG,
        first: 199,
        end: 202,
        chosen: 0x100000000,
    },
    // arg_name = COLON signed
    Production {
        head: nonterminal::ARG_NAME,
        first: 202,
        end: 204,
        chosen: 0x800,
    },
    // arg_name = name_size type_tail COLON signed
    Production {
        head: nonterminal::ARG_NAME,
        first: 204,
        end: 208,
        chosen: 0x200000000,
    },
    // arg_name = (nothing)
    Production {
        head: nonterminal::ARG_NAME,
        first: 208,
        end: 208,
        chosen: 0x10001000,
    },
    // signed = MINUS NUMBER
    Production {
        head: nonterminal::SIGNED,
        first: 208,
        end: 210,
        chosen: 0x8000000000,
    },
    // signed = NUMBER
    Production {
        head: nonterminal::SIGNED,
        first: 210,
        end: 211,
        chosen: 0x80000000000,
    },
    // type = base type_tail
    Production {
        head: nonterminal::TYPE,
        first: 211,
        end: 213,
        chosen: 0xe41000011004000180,
    },
    // base = base_keyword
    Production {
        head: nonterminal::BASE,
        first: 213,
        end: 214,
        chosen: 0xc01000000000000080,
    },
    // base = any_name
    Production {
        head: nonterminal::BASE,
        first: 214,
        end: 215,
        chosen: 0x240000010004000100,
    },
    // base = LPAREN types RPAREN
    Production {
        head: nonterminal::BASE,
        first: 215,
        end: 218,
        chosen: 0x1000000000,
    },
    // base_keyword = UNSIGNED
    Production {
        head: nonterminal::BASE_KEYWORD,
        first: 218,
        end: 219,
        chosen: 0x400000000000000000,
    },
    // base_keyword = SIGNED
    Production {
        head: nonterminal::BASE_KEYWORD,
        first: 219,
        end: 220,
        chosen: 0x1000000000000000,
    },
    // base_keyword = WIDE LBRACKET expr RBRACKET
    Production {
        head: nonterminal::BASE_KEYWORD,
        first: 220,
        end: 224,
        chosen: 0x800000000000000000,
    },
    // base_keyword = BOOL
    Production {
        head: nonterminal::BASE_KEYWORD,
        first: 224,
        end: 225,
        chosen: 0x80,
    },
    // type_tail = size type_tail
    Production {
        head: nonterminal::TYPE_TAIL,
        first: 225,
        end: 227,
        chosen: 0x200000000,
    },
    // type_tail = (nothing)
    Production {
        head: nonterminal::TYPE_TAIL,
        first: 227,
        end: 227,
        chosen: 0xafe792a558a03a33,
    },
    // size = LBRACKET expr RBRACKET
    Production {
        head: nonterminal::SIZE,
        first: 227,
        end: 230,
        chosen: 0x200000000,
    },
    // name_size = LBRACKET expr RBRACKET
    Production {
        head: nonterminal::NAME_SIZE,
        first: 230,
        end: 233,
        chosen: 0x200000000,
    },
    // types = type types_more
    Production {
        head: nonterminal::TYPES,
        first: 233,
        end: 235,
        chosen: 0xe41000011004000180,
    },
    // types = (nothing)
    Production {
        head: nonterminal::TYPES,
        first: 235,
        end: 235,
        chosen: 0x100000000000000,
    },
    // types_more = COMMA types
    Production {
        head: nonterminal::TYPES_MORE,
        first: 235,
        end: 237,
        chosen: 0x1000,
    },
    // types_more = (nothing)
    Production {
        head: nonterminal::TYPES_MORE,
        first: 237,
        end: 237,
        chosen: 0x100000000000000,
    },
    // block = LBRACE statements RBRACE
    Production {
        head: nonterminal::BLOCK,
        first: 237,
        end: 240,
        chosen: 0x100000000,
    },
    // statements = let statements
    Production {
        head: nonterminal::STATEMENTS,
        first: 240,
        end: 242,
        chosen: 0x800000000,
    },
    // statements = expr statement_end
    Production {
        head: nonterminal::STATEMENTS,
        first: 242,
        end: 244,
        chosen: 0xec100009d3264001c0,
    },
    // statements = (nothing)
    Production {
        head: nonterminal::STATEMENTS,
        first: 244,
        end: 244,
        chosen: 0x20000000000000,
    },
    // statement_end = bare statements
    Production {
        head: nonterminal::STATEMENT_END,
        first: 244,
        end: 246,
        chosen: 0x200000000000000,
    },
    // statement_end = (nothing)
    Production {
        head: nonterminal::STATEMENT_END,
        first: 246,
        end: 246,
        chosen: 0x20000000000000,
    },
    // bare = SEMI
    Production {
        head: nonterminal::BARE,
        first: 246,
        end: 247,
        chosen: 0x200000000000000,
    },
    // let = LET let_pattern ASSIGN expr SEMI
    Production {
        head: nonterminal::LET,
        first: 247,
        end: 252,
        chosen: 0x800000000,
    },
    // let_pattern = plain_pattern let_type
    Production {
        head: nonterminal::LET_PATTERN,
        first: 252,
        end: 254,
        chosen: 0x1c81000001000400080,
    },
    // let_pattern = any_name let_name
    Production {
        head: nonterminal::LET_PATTERN,
        first: 254,
        end: 256,
        chosen: 0x240000010004000100,
    },
    // let_name = PATH any_name let_type
    Production {
        head: nonterminal::LET_NAME,
        first: 256,
        end: 259,
        chosen: 0x400000000000,
    },
    // let_name = name_size type_tail COLON signed let_type
    Production {
        head: nonterminal::LET_NAME,
        first: 259,
        end: 264,
        chosen: 0x200000000,
    },
    // let_name = COLON let_colon
    Production {
        head: nonterminal::LET_NAME,
        first: 264,
        end: 266,
        chosen: 0x800,
    },
    // let_name = (nothing)
    Production {
        head: nonterminal::LET_NAME,
        first: 266,
        end: 266,
        chosen: 0x20,
    },
    // let_colon = signed let_type
    Production {
        head: nonterminal::LET_COLON,
        first: 266,
        end: 268,
        chosen: 0x88000000000,
    },
    // let_colon = type
    Production {
        head: nonterminal::LET_COLON,
        first: 268,
        end: 269,
        chosen: 0xe41000011004000180,
    },
    // let_type = COLON type
    Production {
        head: nonterminal::LET_TYPE,
        first: 269,
        end: 271,
        chosen: 0x800,
    },
    // let_type = (nothing)
    Production {
        head: nonterminal::LET_TYPE,
        first: 271,
        end: 271,
        chosen: 0x20,
    },
    // pattern = plain_pattern
    Production {
        head: nonterminal::PATTERN,
        first: 271,
        end: 272,
        chosen: 0x1c81000001000400080,
    },
    // pattern = any_name pattern_name
    Production {
        head: nonterminal::PATTERN,
        first: 272,
        end: 274,
        chosen: 0x240000010004000100,
    },
    // plain_pattern = WILD
    Production {
        head: nonterminal::PLAIN_PATTERN,
        first: 274,
        end: 275,
        chosen: 0x1000000000000000000,
    },
    // plain_pattern = TRUE
    Production {
        head: nonterminal::PLAIN_PATTERN,
        first: 275,
        end: 276,
        chosen: 0x80000000000000000,
    },
    // plain_pattern = FALSE
    Production {
        head: nonterminal::PLAIN_PATTERN,
        first: 276,
        end: 277,
        chosen: 0x400000,
    },
    // plain_pattern = base_keyword type_tail COLON signed
    Production {
        head: nonterminal::PLAIN_PATTERN,
        first: 277,
        end: 281,
        chosen: 0xc01000000000000080,
    },
    // plain_pattern = LPAREN patterns RPAREN
    Production {
        head: nonterminal::PLAIN_PATTERN,
        first: 281,
        end: 284,
        chosen: 0x1000000000,
    },
    // pattern_name = PATH any_name
    Production {
        head: nonterminal::PATTERN_NAME,
        first: 284,
        end: 286,
        chosen: 0x400000000000,
    },
    // pattern_name = COLON signed
    Production {
        head: nonterminal::PATTERN_NAME,
        first: 286,
        end: 288,
        chosen: 0x800,
    },
    // pattern_name = name_size type_tail COLON signed
    Production {
        head: nonterminal::PATTERN_NAME,
        first: 288,
        end: 292,
        chosen: 0x200000000,
    },
    // pattern_name = (nothing)
    Production {
        head: nonterminal::PATTERN_NAME,
        first: 292,
        end: 292,
        chosen: 0x101000000011000,
    },
    // patterns = pattern patterns_more
    Production {
        head: nonterminal::PATTERNS,
        first: 292,
        end: 294,
        chosen: 0x1ec1000011004400180,
    },
    // patterns = (nothing)
    Production {
        head: nonterminal::PATTERNS,
        first: 294,
        end: 294,
        chosen: 0x100000000000000,
    },
    // patterns_more = COMMA patterns
    Production {
        head: nonterminal::PATTERNS_MORE,
        first: 294,
        end: 296,
        chosen: 0x1000,
    },
    // patterns_more = (nothing)
    Production {
        head: nonterminal::PATTERNS_MORE,
        first: 296,
        end: 296,
        chosen: 0x100000000000000,
    },
    // expr = operand operands
    Production {
        head: nonterminal::EXPR,
        first: 296,
        end: 298,
        chosen: 0xec100009d3264001c0,
    },
    // operands = binary operand operands
    Production {
        head: nonterminal::OPERANDS,
        first: 298,
        end: 301,
        chosen: 0xac0392a418202203,
    },
    // operands = (nothing)
    Production {
        head: nonterminal::OPERANDS,
        first: 301,
        end: 301,
        chosen: 0x3e4000100001800,
    },
    // binary = STAR
    Production {
        head: nonterminal::BINARY,
        first: 301,
        end: 302,
        chosen: 0x8000000000000000,
    },
    // binary = SLASH
    Production {
        head: nonterminal::BINARY,
        first: 302,
        end: 303,
        chosen: 0x2000000000000000,
    },
    // binary = PERCENT
    Production {
        head: nonterminal::BINARY,
        first: 303,
        end: 304,
        chosen: 0x800000000000,
    },
    // binary = PLUS
    Production {
        head: nonterminal::BINARY,
        first: 304,
        end: 305,
        chosen: 0x2000000000000,
    },
    // binary = MINUS
    Production {
        head: nonterminal::BINARY,
        first: 305,
        end: 306,
        chosen: 0x8000000000,
    },
    // binary = CONCAT
    Production {
        head: nonterminal::BINARY,
        first: 306,
        end: 307,
        chosen: 0x2000,
    },
    // binary = SHL
    Production {
        head: nonterminal::BINARY,
        first: 307,
        end: 308,
        chosen: 0x400000000000000,
    },
    // binary = SHR
    Production {
        head: nonterminal::BINARY,
        first: 308,
        end: 309,
        chosen: 0x800000000000000,
    },
    // binary = AMP
    Production {
        head: nonterminal::BINARY,
        first: 309,
        end: 310,
        chosen: 0x1,
    },
    // binary = CARET
    Production {
        head: nonterminal::BINARY,
        first: 310,
        end: 311,
        chosen: 0x200,
    },
    // binary = PIPE
    Production {
        head: nonterminal::BINARY,
        first: 311,
        end: 312,
        chosen: 0x1000000000000,
    },
    // binary = EQ
    Production {
        head: nonterminal::BINARY,
        first: 312,
        end: 313,
        chosen: 0x200000,
    },
    // binary = NE
    Production {
        head: nonterminal::BINARY,
        first: 313,
        end: 314,
        chosen: 0x20000000000,
    },
    // binary = LT
    Production {
        head: nonterminal::BINARY,
        first: 314,
        end: 315,
        chosen: 0x2000000000,
    },
    // binary = LE
    Production {
        head: nonterminal::BINARY,
        first: 315,
        end: 316,
        chosen: 0x400000000,
    },
    // binary = GT
    Production {
        head: nonterminal::BINARY,
        first: 316,
        end: 317,
        chosen: 0x10000000,
    },
    // binary = GE
    Production {
        head: nonterminal::BINARY,
        first: 317,
        end: 318,
        chosen: 0x8000000,
    },
    // binary = ANDAND
    Production {
        head: nonterminal::BINARY,
        first: 318,
        end: 319,
        chosen: 0x2,
    },
    // binary = OROR
    Production {
        head: nonterminal::BINARY,
        first: 319,
        end: 320,
        chosen: 0x100000000000,
    },
    // operand = prefixed casts
    Production {
        head: nonterminal::OPERAND,
        first: 320,
        end: 322,
        chosen: 0xec100009d3264001c0,
    },
    // prefixed = MINUS prefixed
    Production {
        head: nonterminal::PREFIXED,
        first: 322,
        end: 324,
        chosen: 0x8000000000,
    },
    // prefixed = BANG prefixed
    Production {
        head: nonterminal::PREFIXED,
        first: 324,
        end: 326,
        chosen: 0x40,
    },
    // prefixed = atom posts
    Production {
        head: nonterminal::PREFIXED,
        first: 326,
        end: 328,
        chosen: 0xec1000095326400180,
    },
    // casts = cast casts
    Production {
        head: nonterminal::CASTS,
        first: 328,
        end: 330,
        chosen: 0x10,
    },
    // casts = (nothing)
    Production {
        head: nonterminal::CASTS,
        first: 330,
        end: 330,
        chosen: 0xafe792a518203a03,
    },
    // cast = AS type
    Production {
        head: nonterminal::CAST,
        first: 330,
        end: 332,
        chosen: 0x10,
    },
    // posts = LBRACKET expr index_end posts
    Production {
        head: nonterminal::POSTS,
        first: 332,
        end: 336,
        chosen: 0x200000000,
    },
    // posts = DOT part posts
    Production {
        head: nonterminal::POSTS,
        first: 336,
        end: 339,
        chosen: 0x20000,
    },
    // posts = (nothing)
    Production {
        head: nonterminal::POSTS,
        first: 339,
        end: 339,
        chosen: 0xafe792a518203a13,
    },
    // index_end = RBRACKET
    Production {
        head: nonterminal::INDEX_END,
        first: 339,
        end: 340,
        chosen: 0x40000000000000,
    },
    // index_end = COLON expr RBRACKET
    Production {
        head: nonterminal::INDEX_END,
        first: 340,
        end: 343,
        chosen: 0x800,
    },
    // index_end = PLUSCOLON type RBRACKET
    Production {
        head: nonterminal::INDEX_END,
        first: 343,
        end: 346,
        chosen: 0x4000000000000,
    },
    // part = any_name
    Production {
        head: nonterminal::PART,
        first: 346,
        end: 347,
        chosen: 0x240000010004000100,
    },
    // part = NUMBER
    Production {
        head: nonterminal::PART,
        first: 347,
        end: 348,
        chosen: 0x80000000000,
    },
    // atom = NUMBER
    Production {
        head: nonterminal::ATOM,
        first: 348,
        end: 349,
        chosen: 0x80000000000,
    },
    // atom = base_keyword type_tail COLON typed
    Production {
        head: nonterminal::ATOM,
        first: 349,
        end: 353,
        chosen: 0xc01000000000000080,
    },
    // atom = alias_name type_tail COLON typed
    Production {
        head: nonterminal::ATOM,
        first: 353,
        end: 357,
        chosen: 0x200000000000000000,
    },
    // atom = elements
    Production {
        head: nonterminal::ATOM,
        first: 357,
        end: 358,
        chosen: 0x200000000,
    },
    // atom = TRUE
    Production {
        head: nonterminal::ATOM,
        first: 358,
        end: 359,
        chosen: 0x80000000000000000,
    },
    // atom = FALSE
    Production {
        head: nonterminal::ATOM,
        first: 359,
        end: 360,
        chosen: 0x400000,
    },
    // atom = NAME name_tail
    Production {
        head: nonterminal::ATOM,
        first: 360,
        end: 362,
        chosen: 0x10000000000,
    },
    // atom = FUNNAME function_tail
    Production {
        head: nonterminal::ATOM,
        first: 362,
        end: 364,
        chosen: 0x4000000,
    },
    // atom = STRUCTNAME struct_tail
    Production {
        head: nonterminal::ATOM,
        first: 364,
        end: 366,
        chosen: 0x40000000000000000,
    },
    // atom = BOTHNAME both_tail
    Production {
        head: nonterminal::ATOM,
        first: 366,
        end: 368,
        chosen: 0x100,
    },
    // atom = LPAREN parenthesis
    Production {
        head: nonterminal::ATOM,
        first: 368,
        end: 370,
        chosen: 0x1000000000,
    },
    // atom = block
    Production {
        head: nonterminal::ATOM,
        first: 370,
        end: 371,
        chosen: 0x100000000,
    },
    // atom = if
    Production {
        head: nonterminal::ATOM,
        first: 371,
        end: 372,
        chosen: 0x20000000,
    },
    // atom = match
    Production {
        head: nonterminal::ATOM,
        first: 372,
        end: 373,
        chosen: 0x4000000000,
    },
    // atom = for
    Production {
        head: nonterminal::ATOM,
        first: 373,
        end: 374,
        chosen: 0x2000000,
    },
    // alias_name = TYPENAME
    Production {
        head: nonterminal::ALIAS_NAME,
        first: 374,
        end: 375,
        chosen: 0x200000000000000000,
    },
    // typed = signed
    Production {
        head: nonterminal::TYPED,
        first: 375,
        end: 376,
        chosen: 0x88000000000,
    },
    // typed = elements
    Production {
        head: nonterminal::TYPED,
        first: 376,
        end: 377,
        chosen: 0x200000000,
    },
    // name_tail = PATH any_name
    Production {
        head: nonterminal::NAME_TAIL,
        first: 377,
        end: 379,
        chosen: 0x400000000000,
    },
    // name_tail = call
    Production {
        head: nonterminal::NAME_TAIL,
        first: 379,
        end: 380,
        chosen: 0x1000000000,
    },
    // name_tail = (nothing)
    Production {
        head: nonterminal::NAME_TAIL,
        first: 380,
        end: 380,
        chosen: 0xafe792a718223a13,
    },
    // function_tail = PATH any_name
    Production {
        head: nonterminal::FUNCTION_TAIL,
        first: 380,
        end: 382,
        chosen: 0x400000000000,
    },
    // function_tail = call
    Production {
        head: nonterminal::FUNCTION_TAIL,
        first: 382,
        end: 383,
        chosen: 0x1000000000,
    },
    // function_tail = call_with_args
    Production {
        head: nonterminal::FUNCTION_TAIL,
        first: 383,
        end: 384,
        chosen: 0x4,
    },
    // function_tail = (nothing)
    Production {
        head: nonterminal::FUNCTION_TAIL,
        first: 384,
        end: 384,
        chosen: 0xafe792a718223a13,
    },
    // struct_tail = PATH any_name
    Production {
        head: nonterminal::STRUCT_TAIL,
        first: 384,
        end: 386,
        chosen: 0x400000000000,
    },
    // struct_tail = call
    Production {
        head: nonterminal::STRUCT_TAIL,
        first: 386,
        end: 387,
        chosen: 0x1000000000,
    },
    // struct_tail = fields
    Production {
        head: nonterminal::STRUCT_TAIL,
        first: 387,
        end: 388,
        chosen: 0x800000,
    },
    // struct_tail = (nothing)
    Production {
        head: nonterminal::STRUCT_TAIL,
        first: 388,
        end: 388,
        chosen: 0xafe792a718223a13,
    },
    // both_tail = PATH any_name
    Production {
        head: nonterminal::BOTH_TAIL,
        first: 388,
        end: 390,
        chosen: 0x400000000000,
    },
    // both_tail = call
    Production {
        head: nonterminal::BOTH_TAIL,
        first: 390,
        end: 391,
        chosen: 0x1000000000,
    },
    // both_tail = call_with_args
    Production {
        head: nonterminal::BOTH_TAIL,
        first: 391,
        end: 392,
        chosen: 0x4,
    },
    // both_tail = fields
    Production {
        head: nonterminal::BOTH_TAIL,
        first: 392,
        end: 393,
        chosen: 0x800000,
    },
    // both_tail = (nothing)
    Production {
        head: nonterminal::BOTH_TAIL,
        first: 393,
        end: 393,
        chosen: 0xafe792a718223a13,
    },
    // call = LPAREN exprs RPAREN
    Production {
        head: nonterminal::CALL,
        first: 393,
        end: 396,
        chosen: 0x1000000000,
    },
    // call_with_args = ARGS arg args_more GT LPAREN exprs RPAREN
    Production {
        head: nonterminal::CALL_WITH_ARGS,
        first: 396,
        end: 403,
        chosen: 0x4,
    },
    // exprs = expr exprs_more
    Production {
        head: nonterminal::EXPRS,
        first: 403,
        end: 405,
        chosen: 0xec100009d3264001c0,
    },
    // exprs = (nothing)
    Production {
        head: nonterminal::EXPRS,
        first: 405,
        end: 405,
        chosen: 0x100000000000000,
    },
    // exprs_more = COMMA exprs
    Production {
        head: nonterminal::EXPRS_MORE,
        first: 405,
        end: 407,
        chosen: 0x1000,
    },
    // exprs_more = (nothing)
    Production {
        head: nonterminal::EXPRS_MORE,
        first: 407,
        end: 407,
        chosen: 0x100000000000000,
    },
    // fields = FIELDS field_list RBRACE
    Production {
        head: nonterminal::FIELDS,
        first: 407,
        end: 410,
        chosen: 0x800000,
    },
    // field_list = any_name field_value field_more
    Production {
        head: nonterminal::FIELD_LIST,
        first: 410,
        end: 413,
        chosen: 0x240000010004000100,
    },
    // field_list = REST expr
    Production {
        head: nonterminal::FIELD_LIST,
        first: 413,
        end: 415,
        chosen: 0x80000000000000,
    },
    // field_list = (nothing)
    Production {
        head: nonterminal::FIELD_LIST,
        first: 415,
        end: 415,
        chosen: 0x20000000000000,
    },
    // field_value = COLON expr
    Production {
        head: nonterminal::FIELD_VALUE,
        first: 415,
        end: 417,
        chosen: 0x800,
    },
    // field_value = (nothing)
    Production {
        head: nonterminal::FIELD_VALUE,
        first: 417,
        end: 417,
        chosen: 0x20000000001000,
    },
    // field_more = COMMA field_list
    Production {
        head: nonterminal::FIELD_MORE,
        first: 417,
        end: 419,
        chosen: 0x1000,
    },
    // field_more = (nothing)
    Production {
        head: nonterminal::FIELD_MORE,
        first: 419,
        end: 419,
        chosen: 0x20000000000000,
    },
    // parenthesis = RPAREN
    Production {
        head: nonterminal::PARENTHESIS,
        first: 419,
        end: 420,
        chosen: 0x100000000000000,
    },
    // parenthesis = expr parenthesis_end
    Production {
        head: nonterminal::PARENTHESIS,
        first: 420,
        end: 422,
        chosen: 0xec100009d3264001c0,
    },
    // parenthesis_end = RPAREN
    Production {
        head: nonterminal::PARENTHESIS_END,
        first: 422,
        end: 423,
        chosen: 0x100000000000000,
    },
    // parenthesis_end = COMMA exprs RPAREN
    Production {
        head: nonterminal::PARENTHESIS_END,
        first: 423,
        end: 426,
        chosen: 0x1000,
    },
    // elements = LBRACKET expr elements_more RBRACKET
    Production {
        head: nonterminal::ELEMENTS,
        first: 426,
        end: 430,
        chosen: 0x200000000,
    },
    // elements_more = COMMA elements_next
    Production {
        head: nonterminal::ELEMENTS_MORE,
        first: 430,
        end: 432,
        chosen: 0x1000,
    },
    // elements_more = (nothing)
    Production {
        head: nonterminal::ELEMENTS_MORE,
        first: 432,
        end: 432,
        chosen: 0x40000000000000,
    },
    // elements_next = expr elements_more
    Production {
        head: nonterminal::ELEMENTS_NEXT,
        first: 432,
        end: 434,
        chosen: 0xec100009d3264001c0,
    },
    // elements_next = DOTS elements_end
    Production {
        head: nonterminal::ELEMENTS_NEXT,
        first: 434,
        end: 436,
        chosen: 0x40000,
    },
    // elements_next = (nothing)
    Production {
        head: nonterminal::ELEMENTS_NEXT,
        first: 436,
        end: 436,
        chosen: 0x40000000000000,
    },
    // elements_end = COMMA
    Production {
        head: nonterminal::ELEMENTS_END,
        first: 436,
        end: 437,
        chosen: 0x1000,
    },
    // elements_end = (nothing)
    Production {
        head: nonterminal::ELEMENTS_END,
        first: 437,
        end: 437,
        chosen: 0x40000000000000,
    },
    // if = IF expr headed_block ELSE else
    Production {
        head: nonterminal::IF,
        first: 437,
        end: 442,
        chosen: 0x20000000,
    },
    // else = block
    Production {
        head: nonterminal::ELSE,
        first: 442,
        end: 443,
        chosen: 0x100000000,
    },
    // else = if
    Production {
        head: nonterminal::ELSE,
        first: 443,
        end: 444,
        chosen: 0x20000000,
    },
    // match = MATCH expr LBRACE arms RBRACE
    Production {
        head: nonterminal::MATCH,
        first: 444,
        end: 449,
        chosen: 0x4000000000,
    },
    // arms = arm arms_more
    Production {
        head: nonterminal::ARMS,
        first: 449,
        end: 451,
        chosen: 0x1ec1000011004400180,
    },
    // arms = (nothing)
    Production {
        head: nonterminal::ARMS,
        first: 451,
        end: 451,
        chosen: 0x20000000000000,
    },
    // arms_more = COMMA arms
    Production {
        head: nonterminal::ARMS_MORE,
        first: 451,
        end: 453,
        chosen: 0x1000,
    },
    // arms_more = (nothing)
    Production {
        head: nonterminal::ARMS_MORE,
        first: 453,
        end: 453,
        chosen: 0x20000000000000,
    },
    // arm = pattern alternatives DARROW expr
    Production {
        head: nonterminal::ARM,
        first: 453,
        end: 457,
        chosen: 0x1ec1000011004400180,
    },
    // alternatives = PIPE pattern alternatives
    Production {
        head: nonterminal::ALTERNATIVES,
        first: 457,
        end: 460,
        chosen: 0x1000000000000,
    },
    // alternatives = (nothing)
    Production {
        head: nonterminal::ALTERNATIVES,
        first: 460,
        end: 460,
        chosen: 0x10000,
    },
    // for = FOR LPAREN pattern COMMA pattern RPAREN for_type for_range
    Production {
        head: nonterminal::FOR,
        first: 460,
        end: 468,
        chosen: 0x2000000,
    },
    // for_type = COLON type
    Production {
        head: nonterminal::FOR_TYPE,
        first: 468,
        end: 470,
        chosen: 0x800,
    },
    // for_type = (nothing)
    Production {
        head: nonterminal::FOR_TYPE,
        first: 470,
        end: 470,
        chosen: 0x40000000,
    },
    // for_range = IN expr REST expr headed_block LPAREN expr RPAREN
    Production {
        head: nonterminal::FOR_RANGE,
        first: 470,
        end: 478,
        chosen: 0x40000000,
    },
    // headed_block = LBRACE statements RBRACE
    Production {
        head: nonterminal::HEADED_BLOCK,
        first: 478,
        end: 481,
        chosen: 0x100000000,
    },
];

/// Where the alternatives of each nonterminal stand.
pub static SPANS: [Span; 117] = [
    // module
    Span { first: 0, end: 1 },
    // items
    Span { first: 1, end: 3 },
    // item
    Span { first: 3, end: 5 },
    // definition
    Span { first: 5, end: 11 },
    // any_name
    Span { first: 11, end: 16 },
    // open_brace
    Span { first: 16, end: 18 },
    // open_angle
    Span { first: 18, end: 20 },
    // function
    Span { first: 20, end: 21 },
    // result_type
    Span { first: 21, end: 23 },
    // parameters
    Span { first: 23, end: 25 },
    // parameters_more
    Span { first: 25, end: 27 },
    // parameter
    Span { first: 27, end: 28 },
    // parameter_default
    Span { first: 28, end: 30 },
    // arguments_declared
    Span { first: 30, end: 32 },
    // arguments_declared_more
    Span { first: 32, end: 34 },
    // argument_declared
    Span { first: 34, end: 35 },
    // constant
    Span { first: 35, end: 36 },
    // constant_type
    Span { first: 36, end: 38 },
    // alias
    Span { first: 38, end: 39 },
    // structure
    Span { first: 39, end: 40 },
    // enumeration
    Span { first: 40, end: 41 },
    // members
    Span { first: 41, end: 43 },
    // members_more
    Span { first: 43, end: 45 },
    // member
    Span { first: 45, end: 46 },
    // proc
    Span { first: 46, end: 47 },
    // proc_members
    Span { first: 47, end: 49 },
    // proc_member
    Span { first: 49, end: 50 },
    // end
    Span { first: 50, end: 51 },
    // direction
    Span { first: 51, end: 53 },
    // parts
    Span { first: 53, end: 56 },
    // parts_init_next
    Span { first: 56, end: 58 },
    // parts_config_next
    Span { first: 58, end: 60 },
    // parts_config_init
    Span { first: 60, end: 62 },
    // config
    Span { first: 62, end: 63 },
    // ends
    Span { first: 63, end: 65 },
    // ends_more
    Span { first: 65, end: 67 },
    // end_declared
    Span { first: 67, end: 68 },
    // makings
    Span { first: 68, end: 71 },
    // channel
    Span { first: 71, end: 72 },
    // channel_made
    Span { first: 72, end: 73 },
    // channel_end
    Span { first: 73, end: 74 },
    // channel_depth
    Span { first: 74, end: 76 },
    // spawn
    Span { first: 76, end: 77 },
    // spawn_args
    Span { first: 77, end: 79 },
    // config_result
    Span { first: 79, end: 81 },
    // names
    Span { first: 81, end: 83 },
    // names_more
    Span { first: 83, end: 85 },
    // init
    Span { first: 85, end: 86 },
    // next
    Span { first: 86, end: 87 },
    // args_more
    Span { first: 87, end: 89 },
    // arg
    Span { first: 89, end: 93 },
    // arg_name
    Span { first: 93, end: 96 },
    // signed
    Span { first: 96, end: 98 },
    // type
    Span { first: 98, end: 99 },
    // base
    Span {
        first: 99,
        end: 102,
    },
    // base_keyword
    Span {
        first: 102,
        end: 106,
    },
    // type_tail
    Span {
        first: 106,
        end: 108,
    },
    // size
    Span {
        first: 108,
        end: 109,
    },
    // name_size
    Span {
        first: 109,
        end: 110,
    },
    // types
    Span {
        first: 110,
        end: 112,
    },
    // types_more
    Span {
        first: 112,
        end: 114,
    },
    // block
    Span {
        first: 114,
        end: 115,
    },
    // statements
    Span {
        first: 115,
        end: 118,
    },
    // statement_end
    Span {
        first: 118,
        end: 120,
    },
    // bare
    Span {
        first: 120,
        end: 121,
    },
    // let
    Span {
        first: 121,
        end: 122,
    },
    // let_pattern
    Span {
        first: 122,
        end: 124,
    },
    // let_name
    Span {
        first: 124,
        end: 128,
    },
    // let_colon
    Span {
        first: 128,
        end: 130,
    },
    // let_type
    Span {
        first: 130,
        end: 132,
    },
    // pattern
    Span {
        first: 132,
        end: 134,
    },
    // plain_pattern
    Span {
        first: 134,
        end: 139,
    },
    // pattern_name
    Span {
        first: 139,
        end: 143,
    },
    // patterns
    Span {
        first: 143,
        end: 145,
    },
    // patterns_more
    Span {
        first: 145,
        end: 147,
    },
    // expr
    Span {
        first: 147,
        end: 148,
    },
    // operands
    Span {
        first: 148,
        end: 150,
    },
    // binary
    Span {
        first: 150,
        end: 169,
    },
    // operand
    Span {
        first: 169,
        end: 170,
    },
    // prefixed
    Span {
        first: 170,
        end: 173,
    },
    // casts
    Span {
        first: 173,
        end: 175,
    },
    // cast
    Span {
        first: 175,
        end: 176,
    },
    // posts
    Span {
        first: 176,
        end: 179,
    },
    // index_end
    Span {
        first: 179,
        end: 182,
    },
    // part
    Span {
        first: 182,
        end: 184,
    },
    // atom
    Span {
        first: 184,
        end: 199,
    },
    // alias_name
    Span {
        first: 199,
        end: 200,
    },
    // typed
    Span {
        first: 200,
        end: 202,
    },
    // name_tail
    Span {
        first: 202,
        end: 205,
    },
    // function_tail
    Span {
        first: 205,
        end: 209,
    },
    // struct_tail
    Span {
        first: 209,
        end: 213,
    },
    // both_tail
    Span {
        first: 213,
        end: 218,
    },
    // call
    Span {
        first: 218,
        end: 219,
    },
    // call_with_args
    Span {
        first: 219,
        end: 220,
    },
    // exprs
    Span {
        first: 220,
        end: 222,
    },
    // exprs_more
    Span {
        first: 222,
        end: 224,
    },
    // fields
    Span {
        first: 224,
        end: 225,
    },
    // field_list
    Span {
        first: 225,
        end: 228,
    },
    // field_value
    Span {
        first: 228,
        end: 230,
    },
    // field_more
    Span {
        first: 230,
        end: 232,
    },
    // parenthesis
    Span {
        first: 232,
        end: 234,
    },
    // parenthesis_end
    Span {
        first: 234,
        end: 236,
    },
    // elements
    Span {
        first: 236,
        end: 237,
    },
    // elements_more
    Span {
        first: 237,
        end: 239,
    },
    // elements_next
    Span {
        first: 239,
        end: 242,
    },
    // elements_end
    Span {
        first: 242,
        end: 244,
    },
    // if
    Span {
        first: 244,
        end: 245,
    },
    // else
    Span {
        first: 245,
        end: 247,
    },
    // match
    Span {
        first: 247,
        end: 248,
    },
    // arms
    Span {
        first: 248,
        end: 250,
    },
    // arms_more
    Span {
        first: 250,
        end: 252,
    },
    // arm
    Span {
        first: 252,
        end: 253,
    },
    // alternatives
    Span {
        first: 253,
        end: 255,
    },
    // for
    Span {
        first: 255,
        end: 256,
    },
    // for_type
    Span {
        first: 256,
        end: 258,
    },
    // for_range
    Span {
        first: 258,
        end: 259,
    },
    // headed_block
    Span {
        first: 259,
        end: 260,
    },
];
