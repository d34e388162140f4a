//! What the steps of a text's derivation build is the tree that the rules of the grammar make.
ghost use Rattle.std.specs.Prelude.{◌≡◌, ℕ, List, map};
ghost use Rattle.base.specs.Grammar.Steps.{steps_of};
ghost use Rattle.base.specs.Grammar.Tree.{Forest, IsParseTree, productions_of};
ghost use Rattle.dslx_parser.specs.Builder.Building.{built, module_of};
ghost use Rattle.dslx_token.specs.Rules.Dslx.{dslx};
ghost use Rattle.dslx_actions.specs.Empty.{empty};
ghost use Rattle.dslx_parser.specs.Syntax.Trees.{IsTextOf};
ghost use Rattle.dslx_token.specs.Lexeme.{Lexeme};
ghost use Rattle.dslx_tree.specs.declared.item.Module.{Module};

/// What is built of the tokens of a text by their parse tree is the text's tree; and the tree of a text is what is built
/// by a parse tree of its tokens.
pub fn built_is_made()
    ensures made { (ls : List Lexeme) (ps : List ℕ) (f : Forest)
        → IsParseTree dslx ps (map (λ l. l.kind) ls) f
        → IsTextOf ls (module_of (built (steps_of f) ls empty)) }
    ensures built { (ls : List Lexeme) (m : Module) → (text : IsTextOf ls m)
        → IsParseTree dslx (productions_of text.forest) (map (λ l. l.kind) ls) text.forest
        × (m ≡ module_of (built (steps_of text.forest) ls empty)) }
{
    crate::syntax::all_rules_make();
}
