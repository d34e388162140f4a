//! What is done for each rule of the grammar.

ghost use Rattle.std.specs.Prelude.{◌≡◌, map};
ghost use Rattle.base.specs.Grammar.Syntax.{AreInOrder};
ghost use Rattle.dslx_parser.specs.Builder.Building.{entry_at, rule_of};
ghost use Rattle.dslx_parser.specs.Builder.Table.{table};

use crate::builder::rule::{CommonAction, Rule};
use dslx_actions::types::{PatternAction, TypeAction};
use dslx_node_actions::exprs::atoms::{ArgAction, AtomAction};
use dslx_node_actions::exprs::braces::BraceAction;
use dslx_node_actions::exprs::operators::OperatorAction;
use dslx_node_actions::items::{ItemAction, ProcAction};
use dslx_token::rules::production::*;
use dslx_tree::{Binary, Direction, Prefix};

/// Each rule of the grammar by its name, in the order of docs/dslx.grammar, and what it does.
pub const RULES: [(u16, Rule); 260] = [
    // module = items
    (MODULE, Rule::Keep),
    // items = item items
    (ITEMS__ITEM, Rule::Keep),
    // items = (nothing)
    (ITEMS__NONE, Rule::Keep),
    // item = PUB definition
    (ITEM__PUB, Rule::Item(ItemAction::Public)),
    // item = definition
    (ITEM__DEFINITION, Rule::Item(ItemAction::Private)),
    // definition = function
    (DEFINITION__FUNCTION, Rule::Keep),
    // definition = proc
    (DEFINITION__PROC, Rule::Keep),
    // definition = constant
    (DEFINITION__CONSTANT, Rule::Keep),
    // definition = alias
    (DEFINITION__ALIAS, Rule::Keep),
    // definition = structure
    (DEFINITION__STRUCTURE, Rule::Keep),
    // definition = enumeration
    (DEFINITION__ENUMERATION, Rule::Keep),
    // any_name = NAME
    (ANY_NAME__NAME, Rule::Keep),
    // any_name = TYPENAME
    (ANY_NAME__TYPENAME, Rule::Keep),
    // any_name = FUNNAME
    (ANY_NAME__FUNNAME, Rule::Keep),
    // any_name = STRUCTNAME
    (ANY_NAME__STRUCTNAME, Rule::Keep),
    // any_name = BOTHNAME
    (ANY_NAME__BOTHNAME, Rule::Keep),
    // open_brace = LBRACE
    (OPEN_BRACE__LBRACE, Rule::Keep),
    // open_brace = FIELDS
    (OPEN_BRACE__FIELDS, Rule::Keep),
    // open_angle = LT
    (OPEN_ANGLE__LT, Rule::Keep),
    // open_angle = ARGS
    (OPEN_ANGLE__ARGS, Rule::Keep),
    // function = FN any_name parameters LPAREN arguments_declared RPAREN result_type block
    (FUNCTION, Rule::Item(ItemAction::Function)),
    // result_type = ARROW type
    (RESULT_TYPE__ARROW, Rule::Common(CommonAction::Annotation)),
    // result_type = (nothing)
    (RESULT_TYPE__NONE, Rule::Common(CommonAction::NoAnnotation)),
    // parameters = open_angle parameter parameters_more GT
    (
        PARAMETERS__OPEN_ANGLE,
        Rule::Common(CommonAction::SkipMore(2)),
    ),
    // parameters = (nothing)
    (PARAMETERS__NONE, Rule::Common(CommonAction::Start)),
    // parameters_more = COMMA parameter parameters_more
    (
        PARAMETERS_MORE__COMMA,
        Rule::Common(CommonAction::SkipMore(1)),
    ),
    // parameters_more = (nothing)
    (PARAMETERS_MORE__NONE, Rule::Common(CommonAction::Start)),
    // parameter = any_name COLON type parameter_default
    (PARAMETER, Rule::Item(ItemAction::Parametric)),
    // parameter_default = ASSIGN LBRACE expr RBRACE
    (
        PARAMETER_DEFAULT__ASSIGN,
        Rule::Common(CommonAction::Given(3)),
    ),
    // parameter_default = (nothing)
    (PARAMETER_DEFAULT__NONE, Rule::Common(CommonAction::LeftOut)),
    // arguments_declared = argument_declared arguments_declared_more
    (
        ARGUMENTS_DECLARED__ARGUMENT_DECLARED,
        Rule::Common(CommonAction::More),
    ),
    // arguments_declared = (nothing)
    (ARGUMENTS_DECLARED__NONE, Rule::Common(CommonAction::Start)),
    // arguments_declared_more = COMMA arguments_declared
    (
        ARGUMENTS_DECLARED_MORE__COMMA,
        Rule::Common(CommonAction::Skip(1)),
    ),
    // arguments_declared_more = (nothing)
    (
        ARGUMENTS_DECLARED_MORE__NONE,
        Rule::Common(CommonAction::Start),
    ),
    // argument_declared = any_name COLON type
    (ARGUMENT_DECLARED, Rule::Item(ItemAction::Field)),
    // constant = CONST any_name constant_type ASSIGN expr SEMI
    (CONSTANT, Rule::Item(ItemAction::Constant)),
    // constant_type = COLON type
    (CONSTANT_TYPE__COLON, Rule::Common(CommonAction::Annotation)),
    // constant_type = (nothing)
    (
        CONSTANT_TYPE__NONE,
        Rule::Common(CommonAction::NoAnnotation),
    ),
    // alias = TYPE any_name ASSIGN type SEMI
    (ALIAS, Rule::Item(ItemAction::Alias)),
    // structure = STRUCT any_name open_brace arguments_declared RBRACE
    (STRUCTURE, Rule::Item(ItemAction::Struct)),
    // enumeration = ENUM any_name COLON type open_brace members RBRACE
    (ENUMERATION, Rule::Item(ItemAction::Enum)),
    // members = member members_more
    (MEMBERS__MEMBER, Rule::Common(CommonAction::More)),
    // members = (nothing)
    (MEMBERS__NONE, Rule::Common(CommonAction::Start)),
    // members_more = COMMA members
    (MEMBERS_MORE__COMMA, Rule::Common(CommonAction::Skip(1))),
    // members_more = (nothing)
    (MEMBERS_MORE__NONE, Rule::Common(CommonAction::Start)),
    // member = any_name ASSIGN expr
    (MEMBER, Rule::Item(ItemAction::Member)),
    // proc = PROC any_name parameters open_brace proc_members parts RBRACE
    (PROC, Rule::Proc(ProcAction::Proc)),
    // proc_members = proc_member proc_members
    (PROC_MEMBERS__PROC_MEMBER, Rule::Common(CommonAction::More)),
    // proc_members = (nothing)
    (PROC_MEMBERS__NONE, Rule::Common(CommonAction::Start)),
    // proc_member = any_name COLON end SEMI
    (PROC_MEMBER, Rule::Proc(ProcAction::End(2))),
    // end = CHAN LT type GT direction
    (END, Rule::Common(CommonAction::Skip(3))),
    // direction = IN
    (
        DIRECTION__IN,
        Rule::Proc(ProcAction::Direction(Direction::In)),
    ),
    // direction = OUT
    (
        DIRECTION__OUT,
        Rule::Proc(ProcAction::Direction(Direction::Out)),
    ),
    // parts = config parts_init_next
    (PARTS__CONFIG, Rule::Keep),
    // parts = init parts_config_next
    (PARTS__INIT, Rule::Keep),
    // parts = next parts_config_init
    (PARTS__NEXT, Rule::Keep),
    // parts_init_next = init next
    (PARTS_INIT_NEXT__INIT, Rule::Keep),
    // parts_init_next = next init
    (PARTS_INIT_NEXT__NEXT, Rule::Keep),
    // parts_config_next = config next
    (PARTS_CONFIG_NEXT__CONFIG, Rule::Keep),
    // parts_config_next = next config
    (PARTS_CONFIG_NEXT__NEXT, Rule::Keep),
    // parts_config_init = config init
    (PARTS_CONFIG_INIT__CONFIG, Rule::Keep),
    // parts_config_init = init config
    (PARTS_CONFIG_INIT__INIT, Rule::Keep),
    // config = CONFIG LPAREN ends RPAREN LBRACE makings config_result RBRACE
    (CONFIG, Rule::Proc(ProcAction::Config)),
    // ends = end_declared ends_more
    (ENDS__END_DECLARED, Rule::Common(CommonAction::More)),
    // ends = (nothing)
    (ENDS__NONE, Rule::Common(CommonAction::Start)),
    // ends_more = COMMA ends
    (ENDS_MORE__COMMA, Rule::Common(CommonAction::Skip(1))),
    // ends_more = (nothing)
    (ENDS_MORE__NONE, Rule::Common(CommonAction::Start)),
    // end_declared = any_name COLON end
    (END_DECLARED, Rule::Proc(ProcAction::End(1))),
    // makings = channel makings
    (MAKINGS__CHANNEL, Rule::Common(CommonAction::More)),
    // makings = spawn makings
    (MAKINGS__SPAWN, Rule::Common(CommonAction::More)),
    // makings = (nothing)
    (MAKINGS__NONE, Rule::Common(CommonAction::Start)),
    // channel = LET LPAREN any_name COMMA any_name RPAREN ASSIGN channel_made
    (CHANNEL, Rule::Proc(ProcAction::Channel)),
    // channel_made = CHAN LT type channel_depth GT LPAREN STRING channel_end
    (CHANNEL_MADE, Rule::Common(CommonAction::LastMark(5))),
    // channel_end = RPAREN SEMI
    (CHANNEL_END, Rule::Common(CommonAction::LastMark(2))),
    // channel_depth = COMMA arg
    (CHANNEL_DEPTH__COMMA, Rule::Proc(ProcAction::Depth)),
    // channel_depth = (nothing)
    (CHANNEL_DEPTH__NONE, Rule::Proc(ProcAction::NoDepth)),
    // spawn = SPAWN any_name spawn_args LPAREN names RPAREN SEMI
    (SPAWN, Rule::Proc(ProcAction::Spawn)),
    // spawn_args = open_angle arg args_more GT
    (
        SPAWN_ARGS__OPEN_ANGLE,
        Rule::Common(CommonAction::SkipMore(2)),
    ),
    // spawn_args = (nothing)
    (SPAWN_ARGS__NONE, Rule::Common(CommonAction::Start)),
    // config_result = LPAREN names RPAREN
    (CONFIG_RESULT__LPAREN, Rule::Common(CommonAction::Skip(2))),
    // config_result = (nothing)
    (CONFIG_RESULT__NONE, Rule::Common(CommonAction::Start)),
    // names = any_name names_more
    (NAMES__ANY_NAME, Rule::Common(CommonAction::More)),
    // names = (nothing)
    (NAMES__NONE, Rule::Common(CommonAction::Start)),
    // names_more = COMMA names
    (NAMES_MORE__COMMA, Rule::Common(CommonAction::Skip(1))),
    // names_more = (nothing)
    (NAMES_MORE__NONE, Rule::Common(CommonAction::Start)),
    // init = INIT block
    (INIT, Rule::Common(CommonAction::Skip(1))),
    // next = NEXT LPAREN any_name COLON type RPAREN block
    (NEXT, Rule::Proc(ProcAction::Next)),
    // args_more = COMMA arg args_more
    (ARGS_MORE__COMMA, Rule::Common(CommonAction::SkipMore(1))),
    // args_more = (nothing)
    (ARGS_MORE__NONE, Rule::Common(CommonAction::Start)),
    // arg = NUMBER
    (ARG__NUMBER, Rule::Arg(ArgAction::Number)),
    // arg = base_keyword type_tail COLON signed
    (ARG__BASE_KEYWORD, Rule::Arg(ArgAction::Typed)),
    // arg = any_name arg_name
    (ARG__ANY_NAME, Rule::Keep),
    // arg = LBRACE expr RBRACE
    (ARG__LBRACE, Rule::Arg(ArgAction::Braced)),
    // arg_name = COLON signed
    (ARG_NAME__COLON, Rule::Arg(ArgAction::NamedTyped)),
    // arg_name = name_size type_tail COLON signed
    (ARG_NAME__NAME_SIZE, Rule::Arg(ArgAction::Typed)),
    // arg_name = (nothing)
    (ARG_NAME__NONE, Rule::Arg(ArgAction::Name)),
    // signed = MINUS NUMBER
    (SIGNED__MINUS, Rule::TypeExpr(TypeAction::Negative)),
    // signed = NUMBER
    (SIGNED__NUMBER, Rule::Keep),
    // type = base type_tail
    (TYPE, Rule::Keep),
    // base = base_keyword
    (BASE__BASE_KEYWORD, Rule::Keep),
    // base = any_name
    (BASE__ANY_NAME, Rule::TypeExpr(TypeAction::Named)),
    // base = LPAREN types RPAREN
    (BASE__LPAREN, Rule::TypeExpr(TypeAction::Tuple)),
    // base_keyword = UNSIGNED
    (BASE_KEYWORD__UNSIGNED, Rule::Keep),
    // base_keyword = SIGNED
    (BASE_KEYWORD__SIGNED, Rule::Keep),
    // base_keyword = WIDE LBRACKET expr RBRACKET
    (BASE_KEYWORD__WIDE, Rule::TypeExpr(TypeAction::Wide)),
    // base_keyword = BOOL
    (BASE_KEYWORD__BOOL, Rule::Keep),
    // type_tail = size type_tail
    (TYPE_TAIL__SIZE, Rule::Keep),
    // type_tail = (nothing)
    (TYPE_TAIL__NONE, Rule::Keep),
    // size = LBRACKET expr RBRACKET
    (SIZE, Rule::TypeExpr(TypeAction::Array)),
    // name_size = LBRACKET expr RBRACKET
    (NAME_SIZE, Rule::TypeExpr(TypeAction::NamedArray)),
    // types = type types_more
    (TYPES__TYPE, Rule::Common(CommonAction::More)),
    // types = (nothing)
    (TYPES__NONE, Rule::Common(CommonAction::Start)),
    // types_more = COMMA types
    (TYPES_MORE__COMMA, Rule::Common(CommonAction::Skip(1))),
    // types_more = (nothing)
    (TYPES_MORE__NONE, Rule::Common(CommonAction::Start)),
    // block = LBRACE statements RBRACE
    (BLOCK, Rule::Item(ItemAction::Block)),
    // statements = let statements
    (STATEMENTS__LET, Rule::Common(CommonAction::More)),
    // statements = expr statement_end
    (STATEMENTS__EXPR, Rule::Keep),
    // statements = (nothing)
    (STATEMENTS__NONE, Rule::Common(CommonAction::NothingMore)),
    // statement_end = bare statements
    (STATEMENT_END__BARE, Rule::Common(CommonAction::More)),
    // statement_end = (nothing)
    (STATEMENT_END__NONE, Rule::Item(ItemAction::LastValue)),
    // bare = SEMI
    (BARE, Rule::Item(ItemAction::Bare)),
    // let = LET let_pattern ASSIGN expr SEMI
    (LET, Rule::Item(ItemAction::Let)),
    // let_pattern = plain_pattern let_type
    (LET_PATTERN__PLAIN_PATTERN, Rule::Keep),
    // let_pattern = any_name let_name
    (LET_PATTERN__ANY_NAME, Rule::Keep),
    // let_name = PATH any_name let_type
    (LET_NAME__PATH, Rule::Pattern(PatternAction::Member)),
    // let_name = name_size type_tail COLON signed let_type
    (LET_NAME__NAME_SIZE, Rule::Pattern(PatternAction::Typed)),
    // let_name = COLON let_colon
    (LET_NAME__COLON, Rule::Keep),
    // let_name = (nothing)
    (LET_NAME__NONE, Rule::Pattern(PatternAction::NameAlone)),
    // let_colon = signed let_type
    (LET_COLON__SIGNED, Rule::Pattern(PatternAction::NamedTyped)),
    // let_colon = type
    (LET_COLON__TYPE, Rule::Pattern(PatternAction::NameAnnotated)),
    // let_type = COLON type
    (LET_TYPE__COLON, Rule::Common(CommonAction::Annotation)),
    // let_type = (nothing)
    (LET_TYPE__NONE, Rule::Common(CommonAction::NoAnnotation)),
    // pattern = plain_pattern
    (PATTERN__PLAIN_PATTERN, Rule::Keep),
    // pattern = any_name pattern_name
    (PATTERN__ANY_NAME, Rule::Keep),
    // plain_pattern = WILD
    (PLAIN_PATTERN__WILD, Rule::Pattern(PatternAction::Wild)),
    // plain_pattern = TRUE
    (
        PLAIN_PATTERN__TRUE,
        Rule::Pattern(PatternAction::Bool(true)),
    ),
    // plain_pattern = FALSE
    (
        PLAIN_PATTERN__FALSE,
        Rule::Pattern(PatternAction::Bool(false)),
    ),
    // plain_pattern = base_keyword type_tail COLON signed
    (
        PLAIN_PATTERN__BASE_KEYWORD,
        Rule::Pattern(PatternAction::Typed),
    ),
    // plain_pattern = LPAREN patterns RPAREN
    (PLAIN_PATTERN__LPAREN, Rule::Pattern(PatternAction::Tuple)),
    // pattern_name = PATH any_name
    (PATTERN_NAME__PATH, Rule::Pattern(PatternAction::Member)),
    // pattern_name = COLON signed
    (
        PATTERN_NAME__COLON,
        Rule::Pattern(PatternAction::NamedTyped),
    ),
    // pattern_name = name_size type_tail COLON signed
    (PATTERN_NAME__NAME_SIZE, Rule::Pattern(PatternAction::Typed)),
    // pattern_name = (nothing)
    (PATTERN_NAME__NONE, Rule::Pattern(PatternAction::Name)),
    // patterns = pattern patterns_more
    (PATTERNS__PATTERN, Rule::Common(CommonAction::More)),
    // patterns = (nothing)
    (PATTERNS__NONE, Rule::Common(CommonAction::Start)),
    // patterns_more = COMMA patterns
    (PATTERNS_MORE__COMMA, Rule::Common(CommonAction::Skip(1))),
    // patterns_more = (nothing)
    (PATTERNS_MORE__NONE, Rule::Common(CommonAction::Start)),
    // expr = operand operands
    (EXPR, Rule::Operator(OperatorAction::Chain)),
    // operands = binary operand operands
    (OPERANDS__BINARY, Rule::Common(CommonAction::More)),
    // operands = (nothing)
    (OPERANDS__NONE, Rule::Common(CommonAction::Start)),
    // binary = STAR
    (
        BINARY__STAR,
        Rule::Operator(OperatorAction::Sign(Binary::Mul)),
    ),
    // binary = SLASH
    (
        BINARY__SLASH,
        Rule::Operator(OperatorAction::Sign(Binary::Div)),
    ),
    // binary = PERCENT
    (
        BINARY__PERCENT,
        Rule::Operator(OperatorAction::Sign(Binary::Rem)),
    ),
    // binary = PLUS
    (
        BINARY__PLUS,
        Rule::Operator(OperatorAction::Sign(Binary::Add)),
    ),
    // binary = MINUS
    (
        BINARY__MINUS,
        Rule::Operator(OperatorAction::Sign(Binary::Sub)),
    ),
    // binary = CONCAT
    (
        BINARY__CONCAT,
        Rule::Operator(OperatorAction::Sign(Binary::Concat)),
    ),
    // binary = SHL
    (
        BINARY__SHL,
        Rule::Operator(OperatorAction::Sign(Binary::Shl)),
    ),
    // binary = SHR
    (
        BINARY__SHR,
        Rule::Operator(OperatorAction::Sign(Binary::Shr)),
    ),
    // binary = AMP
    (
        BINARY__AMP,
        Rule::Operator(OperatorAction::Sign(Binary::And)),
    ),
    // binary = CARET
    (
        BINARY__CARET,
        Rule::Operator(OperatorAction::Sign(Binary::Xor)),
    ),
    // binary = PIPE
    (
        BINARY__PIPE,
        Rule::Operator(OperatorAction::Sign(Binary::Or)),
    ),
    // binary = EQ
    (BINARY__EQ, Rule::Operator(OperatorAction::Sign(Binary::Eq))),
    // binary = NE
    (BINARY__NE, Rule::Operator(OperatorAction::Sign(Binary::Ne))),
    // binary = LT
    (BINARY__LT, Rule::Operator(OperatorAction::Sign(Binary::Lt))),
    // binary = LE
    (BINARY__LE, Rule::Operator(OperatorAction::Sign(Binary::Le))),
    // binary = GT
    (BINARY__GT, Rule::Operator(OperatorAction::Sign(Binary::Gt))),
    // binary = GE
    (BINARY__GE, Rule::Operator(OperatorAction::Sign(Binary::Ge))),
    // binary = ANDAND
    (
        BINARY__ANDAND,
        Rule::Operator(OperatorAction::Sign(Binary::Both)),
    ),
    // binary = OROR
    (
        BINARY__OROR,
        Rule::Operator(OperatorAction::Sign(Binary::Either)),
    ),
    // operand = prefixed casts
    (OPERAND, Rule::Keep),
    // prefixed = MINUS prefixed
    (
        PREFIXED__MINUS,
        Rule::Operator(OperatorAction::Prefixed(Prefix::Minus)),
    ),
    // prefixed = BANG prefixed
    (
        PREFIXED__BANG,
        Rule::Operator(OperatorAction::Prefixed(Prefix::Not)),
    ),
    // prefixed = atom posts
    (PREFIXED__ATOM, Rule::Keep),
    // casts = cast casts
    (CASTS__CAST, Rule::Keep),
    // casts = (nothing)
    (CASTS__NONE, Rule::Keep),
    // cast = AS type
    (CAST, Rule::Operator(OperatorAction::Cast)),
    // posts = LBRACKET expr index_end posts
    (POSTS__LBRACKET, Rule::Keep),
    // posts = DOT part posts
    (POSTS__DOT, Rule::Keep),
    // posts = (nothing)
    (POSTS__NONE, Rule::Keep),
    // index_end = RBRACKET
    (INDEX_END__RBRACKET, Rule::Operator(OperatorAction::Index)),
    // index_end = COLON expr RBRACKET
    (INDEX_END__COLON, Rule::Operator(OperatorAction::Slice)),
    // index_end = PLUSCOLON type RBRACKET
    (INDEX_END__PLUSCOLON, Rule::Operator(OperatorAction::Part)),
    // part = any_name
    (PART__ANY_NAME, Rule::Operator(OperatorAction::Field)),
    // part = NUMBER
    (PART__NUMBER, Rule::Operator(OperatorAction::Element)),
    // atom = NUMBER
    (ATOM__NUMBER, Rule::Atom(AtomAction::BareNumber)),
    // atom = base_keyword type_tail COLON typed
    (ATOM__BASE_KEYWORD, Rule::Keep),
    // atom = alias_name type_tail COLON typed
    (ATOM__ALIAS_NAME, Rule::Keep),
    // atom = elements
    (ATOM__ELEMENTS, Rule::Atom(AtomAction::Array)),
    // atom = TRUE
    (ATOM__TRUE, Rule::Atom(AtomAction::Bool(true))),
    // atom = FALSE
    (ATOM__FALSE, Rule::Atom(AtomAction::Bool(false))),
    // atom = NAME name_tail
    (ATOM__NAME, Rule::Keep),
    // atom = FUNNAME function_tail
    (ATOM__FUNNAME, Rule::Keep),
    // atom = STRUCTNAME struct_tail
    (ATOM__STRUCTNAME, Rule::Keep),
    // atom = BOTHNAME both_tail
    (ATOM__BOTHNAME, Rule::Keep),
    // atom = LPAREN parenthesis
    (ATOM__LPAREN, Rule::Keep),
    // atom = block
    (ATOM__BLOCK, Rule::Brace(BraceAction::Block)),
    // atom = if
    (ATOM__IF, Rule::Keep),
    // atom = match
    (ATOM__MATCH, Rule::Keep),
    // atom = for
    (ATOM__FOR, Rule::Keep),
    // alias_name = TYPENAME
    (ALIAS_NAME, Rule::TypeExpr(TypeAction::Named)),
    // typed = signed
    (TYPED__SIGNED, Rule::Atom(AtomAction::TypedNumber)),
    // typed = elements
    (TYPED__ELEMENTS, Rule::Atom(AtomAction::TypedArray)),
    // name_tail = PATH any_name
    (NAME_TAIL__PATH, Rule::Atom(AtomAction::Member)),
    // name_tail = call
    (NAME_TAIL__CALL, Rule::Keep),
    // name_tail = (nothing)
    (NAME_TAIL__NONE, Rule::Atom(AtomAction::Name)),
    // function_tail = PATH any_name
    (FUNCTION_TAIL__PATH, Rule::Atom(AtomAction::Member)),
    // function_tail = call
    (FUNCTION_TAIL__CALL, Rule::Keep),
    // function_tail = call_with_args
    (FUNCTION_TAIL__CALL_WITH_ARGS, Rule::Keep),
    // function_tail = (nothing)
    (FUNCTION_TAIL__NONE, Rule::Atom(AtomAction::Name)),
    // struct_tail = PATH any_name
    (STRUCT_TAIL__PATH, Rule::Atom(AtomAction::Member)),
    // struct_tail = call
    (STRUCT_TAIL__CALL, Rule::Keep),
    // struct_tail = fields
    (STRUCT_TAIL__FIELDS, Rule::Keep),
    // struct_tail = (nothing)
    (STRUCT_TAIL__NONE, Rule::Atom(AtomAction::Name)),
    // both_tail = PATH any_name
    (BOTH_TAIL__PATH, Rule::Atom(AtomAction::Member)),
    // both_tail = call
    (BOTH_TAIL__CALL, Rule::Keep),
    // both_tail = call_with_args
    (BOTH_TAIL__CALL_WITH_ARGS, Rule::Keep),
    // both_tail = fields
    (BOTH_TAIL__FIELDS, Rule::Keep),
    // both_tail = (nothing)
    (BOTH_TAIL__NONE, Rule::Atom(AtomAction::Name)),
    // call = LPAREN exprs RPAREN
    (CALL, Rule::Atom(AtomAction::Call)),
    // call_with_args = ARGS arg args_more GT LPAREN exprs RPAREN
    (CALL_WITH_ARGS, Rule::Atom(AtomAction::CallWithArgs)),
    // exprs = expr exprs_more
    (EXPRS__EXPR, Rule::Common(CommonAction::More)),
    // exprs = (nothing)
    (EXPRS__NONE, Rule::Common(CommonAction::Start)),
    // exprs_more = COMMA exprs
    (EXPRS_MORE__COMMA, Rule::Common(CommonAction::Skip(1))),
    // exprs_more = (nothing)
    (EXPRS_MORE__NONE, Rule::Common(CommonAction::Start)),
    // fields = FIELDS field_list RBRACE
    (FIELDS, Rule::Brace(BraceAction::Struct)),
    // field_list = any_name field_value field_more
    (FIELD_LIST__ANY_NAME, Rule::Common(CommonAction::More)),
    // field_list = REST expr
    (FIELD_LIST__REST, Rule::Brace(BraceAction::Others)),
    // field_list = (nothing)
    (FIELD_LIST__NONE, Rule::Common(CommonAction::NothingMore)),
    // field_value = COLON expr
    (FIELD_VALUE__COLON, Rule::Brace(BraceAction::FieldValue)),
    // field_value = (nothing)
    (FIELD_VALUE__NONE, Rule::Brace(BraceAction::FieldName)),
    // field_more = COMMA field_list
    (FIELD_MORE__COMMA, Rule::Common(CommonAction::Skip(1))),
    // field_more = (nothing)
    (FIELD_MORE__NONE, Rule::Common(CommonAction::NothingMore)),
    // parenthesis = RPAREN
    (PARENTHESIS__RPAREN, Rule::Atom(AtomAction::Unit)),
    // parenthesis = expr parenthesis_end
    (PARENTHESIS__EXPR, Rule::Keep),
    // parenthesis_end = RPAREN
    (PARENTHESIS_END__RPAREN, Rule::Atom(AtomAction::Grouped)),
    // parenthesis_end = COMMA exprs RPAREN
    (PARENTHESIS_END__COMMA, Rule::Atom(AtomAction::Tuple)),
    // elements = LBRACKET expr elements_more RBRACKET
    (ELEMENTS, Rule::Common(CommonAction::More)),
    // elements_more = COMMA elements_next
    (ELEMENTS_MORE__COMMA, Rule::Common(CommonAction::Skip(1))),
    // elements_more = (nothing)
    (ELEMENTS_MORE__NONE, Rule::Atom(AtomAction::LastElement)),
    // elements_next = expr elements_more
    (ELEMENTS_NEXT__EXPR, Rule::Common(CommonAction::More)),
    // elements_next = DOTS elements_end
    (ELEMENTS_NEXT__DOTS, Rule::Atom(AtomAction::Repeated)),
    // elements_next = (nothing)
    (ELEMENTS_NEXT__NONE, Rule::Atom(AtomAction::LastElement)),
    // elements_end = COMMA
    (ELEMENTS_END__COMMA, Rule::Common(CommonAction::Skip(1))),
    // elements_end = (nothing)
    (ELEMENTS_END__NONE, Rule::Keep),
    // if = IF expr headed_block ELSE else
    (IF, Rule::Brace(BraceAction::If)),
    // else = block
    (ELSE__BLOCK, Rule::Brace(BraceAction::Block)),
    // else = if
    (ELSE__IF, Rule::Keep),
    // match = MATCH expr LBRACE arms RBRACE
    (MATCH, Rule::Brace(BraceAction::Match)),
    // arms = arm arms_more
    (ARMS__ARM, Rule::Common(CommonAction::More)),
    // arms = (nothing)
    (ARMS__NONE, Rule::Common(CommonAction::Start)),
    // arms_more = COMMA arms
    (ARMS_MORE__COMMA, Rule::Common(CommonAction::Skip(1))),
    // arms_more = (nothing)
    (ARMS_MORE__NONE, Rule::Common(CommonAction::Start)),
    // arm = pattern alternatives DARROW expr
    (ARM, Rule::Brace(BraceAction::Arm)),
    // alternatives = PIPE pattern alternatives
    (ALTERNATIVES__PIPE, Rule::Common(CommonAction::SkipMore(1))),
    // alternatives = (nothing)
    (ALTERNATIVES__NONE, Rule::Common(CommonAction::Start)),
    // for = FOR LPAREN pattern COMMA pattern RPAREN for_type for_range
    (FOR, Rule::Brace(BraceAction::For)),
    // for_type = COLON type
    (FOR_TYPE__COLON, Rule::Common(CommonAction::Annotation)),
    // for_type = (nothing)
    (FOR_TYPE__NONE, Rule::Common(CommonAction::NoAnnotation)),
    // for_range = IN expr REST expr headed_block LPAREN expr RPAREN
    (FOR_RANGE, Rule::Keep),
    // headed_block = LBRACE statements RBRACE
    (HEADED_BLOCK, Rule::Item(ItemAction::Block)),
];

/// What the rule with this number does.
pub fn rule_of(production: u16) -> Rule
    ensures { result ≡ rule_of production }
{
    rules_are_those_of_the_table();
    listed(production)
}

/// What is listed for the rule with this number.
fn listed(production: u16) -> Rule
    ensures { result ≡ entry_at RULES production }
{
    rule_at(&RULES, usize::from(production))
}

/// What the rule at that index does; nothing is done where there is none.
fn rule_at(rules: &[(u16, Rule)], at: usize) -> Rule
    ensures { result ≡ entry_at rules.now at }
{
    match rules.get(at) {
        Some(entry) => entry.1,
        None => Rule::Keep,
    }
}

/// These are the rules of the definition, and each name there stands for the index of its rule.
pub fn rules_are_those_of_the_table()
    ensures same { RULES ≡ table }
    ensures in_order { AreInOrder (map (λ entry. entry.0) table) }
{}
