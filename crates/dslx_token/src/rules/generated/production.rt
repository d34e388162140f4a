//! Written by tools/grammar_tables.py from docs/dslx.grammar.
//!
//! The productions.

/// `module = items`
pub const MODULE: u16 = 0;

/// `items = item items`
pub const ITEMS__ITEM: u16 = 1;

/// `items = (nothing)`
pub const ITEMS__NONE: u16 = 2;

/// `item = PUB definition`
pub const ITEM__PUB: u16 = 3;

/// `item = definition`
pub const ITEM__DEFINITION: u16 = 4;

/// `definition = function`
pub const DEFINITION__FUNCTION: u16 = 5;

/// `definition = proc`
pub const DEFINITION__PROC: u16 = 6;

/// `definition = constant`
pub const DEFINITION__CONSTANT: u16 = 7;

/// `definition = alias`
pub const DEFINITION__ALIAS: u16 = 8;

/// `definition = structure`
pub const DEFINITION__STRUCTURE: u16 = 9;

/// `definition = enumeration`
pub const DEFINITION__ENUMERATION: u16 = 10;

/// `any_name = NAME`
pub const ANY_NAME__NAME: u16 = 11;

/// `any_name = TYPENAME`
pub const ANY_NAME__TYPENAME: u16 = 12;

/// `any_name = FUNNAME`
pub const ANY_NAME__FUNNAME: u16 = 13;

/// `any_name = STRUCTNAME`
pub const ANY_NAME__STRUCTNAME: u16 = 14;

/// `any_name = BOTHNAME`
pub const ANY_NAME__BOTHNAME: u16 = 15;

/// `open_brace = LBRACE`
pub const OPEN_BRACE__LBRACE: u16 = 16;

/// `open_brace = FIELDS`
pub const OPEN_BRACE__FIELDS: u16 = 17;

/// `open_angle = LT`
pub const OPEN_ANGLE__LT: u16 = 18;

/// `open_angle = ARGS`
pub const OPEN_ANGLE__ARGS: u16 = 19;

/// `function = FN any_name parameters LPAREN arguments_declared RPAREN result_type block`
pub const FUNCTION: u16 = 20;

/// `result_type = ARROW type`
pub const RESULT_TYPE__ARROW: u16 = 21;

/// `result_type = (nothing)`
pub const RESULT_TYPE__NONE: u16 = 22;

/// `parameters = open_angle parameter parameters_more GT`
pub const PARAMETERS__OPEN_ANGLE: u16 = 23;

/// `parameters = (nothing)`
pub const PARAMETERS__NONE: u16 = 24;

/// `parameters_more = COMMA parameter parameters_more`
pub const PARAMETERS_MORE__COMMA: u16 = 25;

/// `parameters_more = (nothing)`
pub const PARAMETERS_MORE__NONE: u16 = 26;

/// `parameter = any_name COLON type parameter_default`
pub const PARAMETER: u16 = 27;

/// `parameter_default = ASSIGN LBRACE expr RBRACE`
pub const PARAMETER_DEFAULT__ASSIGN: u16 = 28;

/// `parameter_default = (nothing)`
pub const PARAMETER_DEFAULT__NONE: u16 = 29;

/// `arguments_declared = argument_declared arguments_declared_more`
pub const ARGUMENTS_DECLARED__ARGUMENT_DECLARED: u16 = 30;

/// `arguments_declared = (nothing)`
pub const ARGUMENTS_DECLARED__NONE: u16 = 31;

/// `arguments_declared_more = COMMA arguments_declared`
pub const ARGUMENTS_DECLARED_MORE__COMMA: u16 = 32;

/// `arguments_declared_more = (nothing)`
pub const ARGUMENTS_DECLARED_MORE__NONE: u16 = 33;

/// `argument_declared = any_name COLON type`
pub const ARGUMENT_DECLARED: u16 = 34;

/// `constant = CONST any_name constant_type ASSIGN expr SEMI`
pub const CONSTANT: u16 = 35;

/// `constant_type = COLON type`
pub const CONSTANT_TYPE__COLON: u16 = 36;

/// `constant_type = (nothing)`
pub const CONSTANT_TYPE__NONE: u16 = 37;

/// `alias = TYPE any_name ASSIGN type SEMI`
pub const ALIAS: u16 = 38;

/// `structure = STRUCT any_name open_brace arguments_declared RBRACE`
pub const STRUCTURE: u16 = 39;

/// `enumeration = ENUM any_name COLON type open_brace members RBRACE`
pub const ENUMERATION: u16 = 40;

/// `members = member members_more`
pub const MEMBERS__MEMBER: u16 = 41;

/// `members = (nothing)`
pub const MEMBERS__NONE: u16 = 42;

/// `members_more = COMMA members`
pub const MEMBERS_MORE__COMMA: u16 = 43;

/// `members_more = (nothing)`
pub const MEMBERS_MORE__NONE: u16 = 44;

/// `member = any_name ASSIGN expr`
pub const MEMBER: u16 = 45;

/// `proc = PROC any_name parameters open_brace proc_members parts RBRACE`
pub const PROC: u16 = 46;

/// `proc_members = proc_member proc_members`
pub const PROC_MEMBERS__PROC_MEMBER: u16 = 47;

/// `proc_members = (nothing)`
pub const PROC_MEMBERS__NONE: u16 = 48;

/// `proc_member = any_name COLON end SEMI`
pub const PROC_MEMBER: u16 = 49;

/// `end = CHAN LT type GT direction`
pub const END: u16 = 50;

/// `direction = IN`
pub const DIRECTION__IN: u16 = 51;

/// `direction = OUT`
pub const DIRECTION__OUT: u16 = 52;

/// `parts = config parts_init_next`
pub const PARTS__CONFIG: u16 = 53;

/// `parts = init parts_config_next`
pub const PARTS__INIT: u16 = 54;

/// `parts = next parts_config_init`
pub const PARTS__NEXT: u16 = 55;

/// `parts_init_next = init next`
pub const PARTS_INIT_NEXT__INIT: u16 = 56;

/// `parts_init_next = next init`
pub const PARTS_INIT_NEXT__NEXT: u16 = 57;

/// `parts_config_next = config next`
pub const PARTS_CONFIG_NEXT__CONFIG: u16 = 58;

/// `parts_config_next = next config`
pub const PARTS_CONFIG_NEXT__NEXT: u16 = 59;

/// `parts_config_init = config init`
pub const PARTS_CONFIG_INIT__CONFIG: u16 = 60;

/// `parts_config_init = init config`
pub const PARTS_CONFIG_INIT__INIT: u16 = 61;

/// `config = CONFIG LPAREN ends RPAREN LBRACE makings config_result RBRACE`
pub const CONFIG: u16 = 62;

/// `ends = end_declared ends_more`
pub const ENDS__END_DECLARED: u16 = 63;

/// `ends = (nothing)`
pub const ENDS__NONE: u16 = 64;

/// `ends_more = COMMA ends`
pub const ENDS_MORE__COMMA: u16 = 65;

/// `ends_more = (nothing)`
pub const ENDS_MORE__NONE: u16 = 66;

/// `end_declared = any_name COLON end`
pub const END_DECLARED: u16 = 67;

/// `makings = channel makings`
pub const MAKINGS__CHANNEL: u16 = 68;

/// `makings = spawn makings`
pub const MAKINGS__SPAWN: u16 = 69;

/// `makings = (nothing)`
pub const MAKINGS__NONE: u16 = 70;

/// `channel = LET LPAREN any_name COMMA any_name RPAREN ASSIGN channel_made`
pub const CHANNEL: u16 = 71;

/// `channel_made = CHAN LT type channel_depth GT LPAREN STRING channel_end`
pub const CHANNEL_MADE: u16 = 72;

/// `channel_end = RPAREN SEMI`
pub const CHANNEL_END: u16 = 73;

/// `channel_depth = COMMA arg`
pub const CHANNEL_DEPTH__COMMA: u16 = 74;

/// `channel_depth = (nothing)`
pub const CHANNEL_DEPTH__NONE: u16 = 75;

/// `spawn = SPAWN any_name spawn_args LPAREN names RPAREN SEMI`
pub const SPAWN: u16 = 76;

/// `spawn_args = open_angle arg args_more GT`
pub const SPAWN_ARGS__OPEN_ANGLE: u16 = 77;

/// `spawn_args = (nothing)`
pub const SPAWN_ARGS__NONE: u16 = 78;

/// `config_result = LPAREN names RPAREN`
pub const CONFIG_RESULT__LPAREN: u16 = 79;

/// `config_result = (nothing)`
pub const CONFIG_RESULT__NONE: u16 = 80;

/// `names = any_name names_more`
pub const NAMES__ANY_NAME: u16 = 81;

/// `names = (nothing)`
pub const NAMES__NONE: u16 = 82;

/// `names_more = COMMA names`
pub const NAMES_MORE__COMMA: u16 = 83;

/// `names_more = (nothing)`
pub const NAMES_MORE__NONE: u16 = 84;

/// `init = INIT block`
pub const INIT: u16 = 85;

/// `next = NEXT LPAREN any_name COLON type RPAREN block`
pub const NEXT: u16 = 86;

/// `args_more = COMMA arg args_more`
pub const ARGS_MORE__COMMA: u16 = 87;

/// `args_more = (nothing)`
pub const ARGS_MORE__NONE: u16 = 88;

/// `arg = NUMBER`
pub const ARG__NUMBER: u16 = 89;

/// `arg = base_keyword type_tail COLON signed`
pub const ARG__BASE_KEYWORD: u16 = 90;

/// `arg = any_name arg_name`
pub const ARG__ANY_NAME: u16 = 91;

/// `arg = LBRACE expr RBRACE`
pub const ARG__LBRACE: u16 = 92;

/// `arg_name = COLON signed`
pub const ARG_NAME__COLON: u16 = 93;

/// `arg_name = name_size type_tail COLON signed`
pub const ARG_NAME__NAME_SIZE: u16 = 94;

/// `arg_name = (nothing)`
pub const ARG_NAME__NONE: u16 = 95;

/// `signed = MINUS NUMBER`
pub const SIGNED__MINUS: u16 = 96;

/// `signed = NUMBER`
pub const SIGNED__NUMBER: u16 = 97;

/// `type = base type_tail`
pub const TYPE: u16 = 98;

/// `base = base_keyword`
pub const BASE__BASE_KEYWORD: u16 = 99;

/// `base = any_name`
pub const BASE__ANY_NAME: u16 = 100;

/// `base = LPAREN types RPAREN`
pub const BASE__LPAREN: u16 = 101;

/// `base_keyword = UNSIGNED`
pub const BASE_KEYWORD__UNSIGNED: u16 = 102;

/// `base_keyword = SIGNED`
pub const BASE_KEYWORD__SIGNED: u16 = 103;

/// `base_keyword = WIDE LBRACKET expr RBRACKET`
pub const BASE_KEYWORD__WIDE: u16 = 104;

/// `base_keyword = BOOL`
pub const BASE_KEYWORD__BOOL: u16 = 105;

/// `type_tail = size type_tail`
pub const TYPE_TAIL__SIZE: u16 = 106;

/// `type_tail = (nothing)`
pub const TYPE_TAIL__NONE: u16 = 107;

/// `size = LBRACKET expr RBRACKET`
pub const SIZE: u16 = 108;

/// `name_size = LBRACKET expr RBRACKET`
pub const NAME_SIZE: u16 = 109;

/// `types = type types_more`
pub const TYPES__TYPE: u16 = 110;

/// `types = (nothing)`
pub const TYPES__NONE: u16 = 111;

/// `types_more = COMMA types`
pub const TYPES_MORE__COMMA: u16 = 112;

/// `types_more = (nothing)`
pub const TYPES_MORE__NONE: u16 = 113;

/// `block = LBRACE statements RBRACE`
pub const BLOCK: u16 = 114;

/// `statements = let statements`
pub const STATEMENTS__LET: u16 = 115;

/// `statements = expr statement_end`
pub const STATEMENTS__EXPR: u16 = 116;

/// `statements = (nothing)`
pub const STATEMENTS__NONE: u16 = 117;

/// `statement_end = bare statements`
pub const STATEMENT_END__BARE: u16 = 118;

/// `statement_end = (nothing)`
pub const STATEMENT_END__NONE: u16 = 119;

/// `bare = SEMI`
pub const BARE: u16 = 120;

/// `let = LET let_pattern ASSIGN expr SEMI`
pub const LET: u16 = 121;

/// `let_pattern = plain_pattern let_type`
pub const LET_PATTERN__PLAIN_PATTERN: u16 = 122;

/// `let_pattern = any_name let_name`
pub const LET_PATTERN__ANY_NAME: u16 = 123;

/// `let_name = PATH any_name let_type`
pub const LET_NAME__PATH: u16 = 124;

/// `let_name = name_size type_tail COLON signed let_type`
pub const LET_NAME__NAME_SIZE: u16 = 125;

/// `let_name = COLON let_colon`
pub const LET_NAME__COLON: u16 = 126;

/// `let_name = (nothing)`
pub const LET_NAME__NONE: u16 = 127;

/// `let_colon = signed let_type`
pub const LET_COLON__SIGNED: u16 = 128;

/// `let_colon = type`
pub const LET_COLON__TYPE: u16 = 129;

/// `let_type = COLON type`
pub const LET_TYPE__COLON: u16 = 130;

/// `let_type = (nothing)`
pub const LET_TYPE__NONE: u16 = 131;

/// `pattern = plain_pattern`
pub const PATTERN__PLAIN_PATTERN: u16 = 132;

/// `pattern = any_name pattern_name`
pub const PATTERN__ANY_NAME: u16 = 133;

/// `plain_pattern = WILD`
pub const PLAIN_PATTERN__WILD: u16 = 134;

/// `plain_pattern = TRUE`
pub const PLAIN_PATTERN__TRUE: u16 = 135;

/// `plain_pattern = FALSE`
pub const PLAIN_PATTERN__FALSE: u16 = 136;

/// `plain_pattern = base_keyword type_tail COLON signed`
pub const PLAIN_PATTERN__BASE_KEYWORD: u16 = 137;

/// `plain_pattern = LPAREN patterns RPAREN`
pub const PLAIN_PATTERN__LPAREN: u16 = 138;

/// `pattern_name = PATH any_name`
pub const PATTERN_NAME__PATH: u16 = 139;

/// `pattern_name = COLON signed`
pub const PATTERN_NAME__COLON: u16 = 140;

/// `pattern_name = name_size type_tail COLON signed`
pub const PATTERN_NAME__NAME_SIZE: u16 = 141;

/// `pattern_name = (nothing)`
pub const PATTERN_NAME__NONE: u16 = 142;

/// `patterns = pattern patterns_more`
pub const PATTERNS__PATTERN: u16 = 143;

/// `patterns = (nothing)`
pub const PATTERNS__NONE: u16 = 144;

/// `patterns_more = COMMA patterns`
pub const PATTERNS_MORE__COMMA: u16 = 145;

/// `patterns_more = (nothing)`
pub const PATTERNS_MORE__NONE: u16 = 146;

/// `expr = operand operands`
pub const EXPR: u16 = 147;

/// `operands = binary operand operands`
pub const OPERANDS__BINARY: u16 = 148;

/// `operands = (nothing)`
pub const OPERANDS__NONE: u16 = 149;

/// `binary = STAR`
pub const BINARY__STAR: u16 = 150;

/// `binary = SLASH`
pub const BINARY__SLASH: u16 = 151;

/// `binary = PERCENT`
pub const BINARY__PERCENT: u16 = 152;

/// `binary = PLUS`
pub const BINARY__PLUS: u16 = 153;

/// `binary = MINUS`
pub const BINARY__MINUS: u16 = 154;

/// `binary = CONCAT`
pub const BINARY__CONCAT: u16 = 155;

/// `binary = SHL`
pub const BINARY__SHL: u16 = 156;

/// `binary = SHR`
pub const BINARY__SHR: u16 = 157;

/// `binary = AMP`
pub const BINARY__AMP: u16 = 158;

/// `binary = CARET`
pub const BINARY__CARET: u16 = 159;

/// `binary = PIPE`
pub const BINARY__PIPE: u16 = 160;

/// `binary = EQ`
pub const BINARY__EQ: u16 = 161;

/// `binary = NE`
pub const BINARY__NE: u16 = 162;

/// `binary = LT`
pub const BINARY__LT: u16 = 163;

/// `binary = LE`
pub const BINARY__LE: u16 = 164;

/// `binary = GT`
pub const BINARY__GT: u16 = 165;

/// `binary = GE`
pub const BINARY__GE: u16 = 166;

/// `binary = ANDAND`
pub const BINARY__ANDAND: u16 = 167;

/// `binary = OROR`
pub const BINARY__OROR: u16 = 168;

/// `operand = prefixed casts`
pub const OPERAND: u16 = 169;

/// `prefixed = MINUS prefixed`
pub const PREFIXED__MINUS: u16 = 170;

/// `prefixed = BANG prefixed`
pub const PREFIXED__BANG: u16 = 171;

/// `prefixed = atom posts`
pub const PREFIXED__ATOM: u16 = 172;

/// `casts = cast casts`
pub const CASTS__CAST: u16 = 173;

/// `casts = (nothing)`
pub const CASTS__NONE: u16 = 174;

/// `cast = AS type`
pub const CAST: u16 = 175;

/// `posts = LBRACKET expr index_end posts`
pub const POSTS__LBRACKET: u16 = 176;

/// `posts = DOT part posts`
pub const POSTS__DOT: u16 = 177;

/// `posts = (nothing)`
pub const POSTS__NONE: u16 = 178;

/// `index_end = RBRACKET`
pub const INDEX_END__RBRACKET: u16 = 179;

/// `index_end = COLON expr RBRACKET`
pub const INDEX_END__COLON: u16 = 180;

/// `index_end = PLUSCOLON type RBRACKET`
pub const INDEX_END__PLUSCOLON: u16 = 181;

/// `part = any_name`
pub const PART__ANY_NAME: u16 = 182;

/// `part = NUMBER`
pub const PART__NUMBER: u16 = 183;

/// `atom = NUMBER`
pub const ATOM__NUMBER: u16 = 184;

/// `atom = base_keyword type_tail COLON typed`
pub const ATOM__BASE_KEYWORD: u16 = 185;

/// `atom = alias_name type_tail COLON typed`
pub const ATOM__ALIAS_NAME: u16 = 186;

/// `atom = elements`
pub const ATOM__ELEMENTS: u16 = 187;

/// `atom = TRUE`
pub const ATOM__TRUE: u16 = 188;

/// `atom = FALSE`
pub const ATOM__FALSE: u16 = 189;

/// `atom = NAME name_tail`
pub const ATOM__NAME: u16 = 190;

/// `atom = FUNNAME function_tail`
pub const ATOM__FUNNAME: u16 = 191;

/// `atom = STRUCTNAME struct_tail`
pub const ATOM__STRUCTNAME: u16 = 192;

/// `atom = BOTHNAME both_tail`
pub const ATOM__BOTHNAME: u16 = 193;

/// `atom = LPAREN parenthesis`
pub const ATOM__LPAREN: u16 = 194;

/// `atom = block`
pub const ATOM__BLOCK: u16 = 195;

/// `atom = if`
pub const ATOM__IF: u16 = 196;

/// `atom = match`
pub const ATOM__MATCH: u16 = 197;

/// `atom = for`
pub const ATOM__FOR: u16 = 198;

/// `alias_name = TYPENAME`
pub const ALIAS_NAME: u16 = 199;

/// `typed = signed`
pub const TYPED__SIGNED: u16 = 200;

/// `typed = elements`
pub const TYPED__ELEMENTS: u16 = 201;

/// `name_tail = PATH any_name`
pub const NAME_TAIL__PATH: u16 = 202;

/// `name_tail = call`
pub const NAME_TAIL__CALL: u16 = 203;

/// `name_tail = (nothing)`
pub const NAME_TAIL__NONE: u16 = 204;

/// `function_tail = PATH any_name`
pub const FUNCTION_TAIL__PATH: u16 = 205;

/// `function_tail = call`
pub const FUNCTION_TAIL__CALL: u16 = 206;

/// `function_tail = call_with_args`
pub const FUNCTION_TAIL__CALL_WITH_ARGS: u16 = 207;

/// `function_tail = (nothing)`
pub const FUNCTION_TAIL__NONE: u16 = 208;

/// `struct_tail = PATH any_name`
pub const STRUCT_TAIL__PATH: u16 = 209;

/// `struct_tail = call`
pub const STRUCT_TAIL__CALL: u16 = 210;

/// `struct_tail = fields`
pub const STRUCT_TAIL__FIELDS: u16 = 211;

/// `struct_tail = (nothing)`
pub const STRUCT_TAIL__NONE: u16 = 212;

/// `both_tail = PATH any_name`
pub const BOTH_TAIL__PATH: u16 = 213;

/// `both_tail = call`
pub const BOTH_TAIL__CALL: u16 = 214;

/// `both_tail = call_with_args`
pub const BOTH_TAIL__CALL_WITH_ARGS: u16 = 215;

/// `both_tail = fields`
pub const BOTH_TAIL__FIELDS: u16 = 216;

/// `both_tail = (nothing)`
pub const BOTH_TAIL__NONE: u16 = 217;

/// `call = LPAREN exprs RPAREN`
pub const CALL: u16 = 218;

/// `call_with_args = ARGS arg args_more GT LPAREN exprs RPAREN`
pub const CALL_WITH_ARGS: u16 = 219;

/// `exprs = expr exprs_more`
pub const EXPRS__EXPR: u16 = 220;

/// `exprs = (nothing)`
pub const EXPRS__NONE: u16 = 221;

/// `exprs_more = COMMA exprs`
pub const EXPRS_MORE__COMMA: u16 = 222;

/// `exprs_more = (nothing)`
pub const EXPRS_MORE__NONE: u16 = 223;

/// `fields = FIELDS field_list RBRACE`
pub const FIELDS: u16 = 224;

/// `field_list = any_name field_value field_more`
pub const FIELD_LIST__ANY_NAME: u16 = 225;

/// `field_list = REST expr`
pub const FIELD_LIST__REST: u16 = 226;

/// `field_list = (nothing)`
pub const FIELD_LIST__NONE: u16 = 227;

/// `field_value = COLON expr`
pub const FIELD_VALUE__COLON: u16 = 228;

/// `field_value = (nothing)`
pub const FIELD_VALUE__NONE: u16 = 229;

/// `field_more = COMMA field_list`
pub const FIELD_MORE__COMMA: u16 = 230;

/// `field_more = (nothing)`
pub const FIELD_MORE__NONE: u16 = 231;

/// `parenthesis = RPAREN`
pub const PARENTHESIS__RPAREN: u16 = 232;

/// `parenthesis = expr parenthesis_end`
pub const PARENTHESIS__EXPR: u16 = 233;

/// `parenthesis_end = RPAREN`
pub const PARENTHESIS_END__RPAREN: u16 = 234;

/// `parenthesis_end = COMMA exprs RPAREN`
pub const PARENTHESIS_END__COMMA: u16 = 235;

/// `elements = LBRACKET expr elements_more RBRACKET`
pub const ELEMENTS: u16 = 236;

/// `elements_more = COMMA elements_next`
pub const ELEMENTS_MORE__COMMA: u16 = 237;

/// `elements_more = (nothing)`
pub const ELEMENTS_MORE__NONE: u16 = 238;

/// `elements_next = expr elements_more`
pub const ELEMENTS_NEXT__EXPR: u16 = 239;

/// `elements_next = DOTS elements_end`
pub const ELEMENTS_NEXT__DOTS: u16 = 240;

/// `elements_next = (nothing)`
pub const ELEMENTS_NEXT__NONE: u16 = 241;

/// `elements_end = COMMA`
pub const ELEMENTS_END__COMMA: u16 = 242;

/// `elements_end = (nothing)`
pub const ELEMENTS_END__NONE: u16 = 243;

/// `if = IF expr headed_block ELSE else`
pub const IF: u16 = 244;

/// `else = block`
pub const ELSE__BLOCK: u16 = 245;

/// `else = if`
pub const ELSE__IF: u16 = 246;

/// `match = MATCH expr LBRACE arms RBRACE`
pub const MATCH: u16 = 247;

/// `arms = arm arms_more`
pub const ARMS__ARM: u16 = 248;

/// `arms = (nothing)`
pub const ARMS__NONE: u16 = 249;

/// `arms_more = COMMA arms`
pub const ARMS_MORE__COMMA: u16 = 250;

/// `arms_more = (nothing)`
pub const ARMS_MORE__NONE: u16 = 251;

/// `arm = pattern alternatives DARROW expr`
pub const ARM: u16 = 252;

/// `alternatives = PIPE pattern alternatives`
pub const ALTERNATIVES__PIPE: u16 = 253;

/// `alternatives = (nothing)`
pub const ALTERNATIVES__NONE: u16 = 254;

/// `for = FOR LPAREN pattern COMMA pattern RPAREN for_type for_range`
pub const FOR: u16 = 255;

/// `for_type = COLON type`
pub const FOR_TYPE__COLON: u16 = 256;

/// `for_type = (nothing)`
pub const FOR_TYPE__NONE: u16 = 257;

/// `for_range = IN expr REST expr headed_block LPAREN expr RPAREN`
pub const FOR_RANGE: u16 = 258;

/// `headed_block = LBRACE statements RBRACE`
pub const HEADED_BLOCK: u16 = 259;
