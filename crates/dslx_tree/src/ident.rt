use base::texts::Name;
use xb_span::Span;

/// A name where the text has it.
#[derive(Drop)]
pub struct Ident {
    pub span: Span,
    pub name: Name,
}
