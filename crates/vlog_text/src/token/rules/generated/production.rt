//! Written by tools/grammar_tables.py from docs/verilog.grammar.
//!
//! The productions.

/// `module = MODULE name LPAREN port ports_more RPAREN SEMI items`
pub const MODULE: u16 = 0;

/// `items = declarations assignments clocked ENDMODULE`
pub const ITEMS: u16 = 1;

/// `name = NAME`
pub const NAME__NAME: u16 = 2;

/// `name = CLK`
pub const NAME__CLK: u16 = 3;

/// `name = RST`
pub const NAME__RST: u16 = 4;

/// `number = NUMBER`
pub const NUMBER__NUMBER: u16 = 5;

/// `number = ZERO`
pub const NUMBER__ZERO: u16 = 6;

/// `range = LBRACKET number COLON ZERO RBRACKET`
pub const RANGE__LBRACKET: u16 = 7;

/// `range = (nothing)`
pub const RANGE__NONE: u16 = 8;

/// `port = direction WIRE range name`
pub const PORT: u16 = 9;

/// `direction = INPUT`
pub const DIRECTION__INPUT: u16 = 10;

/// `direction = OUTPUT`
pub const DIRECTION__OUTPUT: u16 = 11;

/// `ports_more = COMMA port ports_more`
pub const PORTS_MORE__COMMA: u16 = 12;

/// `ports_more = (nothing)`
pub const PORTS_MORE__NONE: u16 = 13;

/// `declarations = declaration declarations`
pub const DECLARATIONS__DECLARATION: u16 = 14;

/// `declarations = (nothing)`
pub const DECLARATIONS__NONE: u16 = 15;

/// `declaration = storage range name SEMI`
pub const DECLARATION: u16 = 16;

/// `storage = WIRE`
pub const STORAGE__WIRE: u16 = 17;

/// `storage = REG`
pub const STORAGE__REG: u16 = 18;

/// `assignments = assignment assignments`
pub const ASSIGNMENTS__ASSIGNMENT: u16 = 19;

/// `assignments = (nothing)`
pub const ASSIGNMENTS__NONE: u16 = 20;

/// `assignment = ASSIGN name EQUALS expr SEMI`
pub const ASSIGNMENT: u16 = 21;

/// `clocked = ALWAYS edge BEGIN reset_branch clock_branch ENDBLOCK`
pub const CLOCKED__ALWAYS: u16 = 22;

/// `clocked = (nothing)`
pub const CLOCKED__NONE: u16 = 23;

/// `edge = AT LPAREN POSEDGE CLK RPAREN`
pub const EDGE: u16 = 24;

/// `reset_branch = IF LPAREN RST RPAREN BEGIN sets ENDBLOCK`
pub const RESET_BRANCH: u16 = 25;

/// `clock_branch = ELSE BEGIN sets ENDBLOCK`
pub const CLOCK_BRANCH: u16 = 26;

/// `sets = set sets`
pub const SETS__SET: u16 = 27;

/// `sets = (nothing)`
pub const SETS__NONE: u16 = 28;

/// `set = name LE atom SEMI`
pub const SET: u16 = 29;

/// `atom = name`
pub const ATOM__NAME: u16 = 30;

/// `atom = LITERAL`
pub const ATOM__LITERAL: u16 = 31;

/// `expr = name name_whole`
pub const EXPR__NAME: u16 = 32;

/// `expr = LITERAL literal_whole`
pub const EXPR__LITERAL: u16 = 33;

/// `expr = other`
pub const EXPR__OTHER: u16 = 34;

/// `expr = SIGNED LPAREN name RPAREN signed_end`
pub const EXPR__SIGNED: u16 = 35;

/// `simple = name name_end`
pub const SIMPLE__NAME: u16 = 36;

/// `simple = LITERAL literal_end`
pub const SIMPLE__LITERAL: u16 = 37;

/// `simple = other`
pub const SIMPLE__OTHER: u16 = 38;

/// `other = unary atom`
pub const OTHER__UNARY: u16 = 39;

/// `other = LBRACE atom atoms_more RBRACE`
pub const OTHER__LBRACE: u16 = 40;

/// `atoms_more = COMMA atom atoms_more`
pub const ATOMS_MORE__COMMA: u16 = 41;

/// `atoms_more = (nothing)`
pub const ATOMS_MORE__NONE: u16 = 42;

/// `name_whole = condition`
pub const NAME_WHOLE__CONDITION: u16 = 43;

/// `name_whole = name_end`
pub const NAME_WHOLE__NAME_END: u16 = 44;

/// `literal_whole = condition`
pub const LITERAL_WHOLE__CONDITION: u16 = 45;

/// `literal_whole = literal_end`
pub const LITERAL_WHOLE__LITERAL_END: u16 = 46;

/// `name_end = slice`
pub const NAME_END__SLICE: u16 = 47;

/// `name_end = literal_end`
pub const NAME_END__LITERAL_END: u16 = 48;

/// `literal_end = binary atom`
pub const LITERAL_END__BINARY: u16 = 49;

/// `literal_end = (nothing)`
pub const LITERAL_END__NONE: u16 = 50;

/// `condition = QUESTION simple COLON simple`
pub const CONDITION: u16 = 51;

/// `slice = LBRACKET number COLON number RBRACKET`
pub const SLICE: u16 = 52;

/// `signed_end = comparison SIGNED LPAREN name RPAREN`
pub const SIGNED_END__COMPARISON: u16 = 53;

/// `signed_end = ASHR atom`
pub const SIGNED_END__ASHR: u16 = 54;

/// `unary = MINUS`
pub const UNARY__MINUS: u16 = 55;

/// `unary = TILDE`
pub const UNARY__TILDE: u16 = 56;

/// `unary = AMP`
pub const UNARY__AMP: u16 = 57;

/// `unary = PIPE`
pub const UNARY__PIPE: u16 = 58;

/// `unary = CARET`
pub const UNARY__CARET: u16 = 59;

/// `binary = PLUS`
pub const BINARY__PLUS: u16 = 60;

/// `binary = MINUS`
pub const BINARY__MINUS: u16 = 61;

/// `binary = STAR`
pub const BINARY__STAR: u16 = 62;

/// `binary = SLASH`
pub const BINARY__SLASH: u16 = 63;

/// `binary = PERCENT`
pub const BINARY__PERCENT: u16 = 64;

/// `binary = AMP`
pub const BINARY__AMP: u16 = 65;

/// `binary = PIPE`
pub const BINARY__PIPE: u16 = 66;

/// `binary = CARET`
pub const BINARY__CARET: u16 = 67;

/// `binary = EQ`
pub const BINARY__EQ: u16 = 68;

/// `binary = NE`
pub const BINARY__NE: u16 = 69;

/// `binary = SHL`
pub const BINARY__SHL: u16 = 70;

/// `binary = SHR`
pub const BINARY__SHR: u16 = 71;

/// `binary = comparison`
pub const BINARY__COMPARISON: u16 = 72;

/// `comparison = LT`
pub const COMPARISON__LT: u16 = 73;

/// `comparison = LE`
pub const COMPARISON__LE: u16 = 74;

/// `comparison = GT`
pub const COMPARISON__GT: u16 = 75;

/// `comparison = GE`
pub const COMPARISON__GE: u16 = 76;
