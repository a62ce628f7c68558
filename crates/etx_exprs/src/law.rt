// What holds of all expressions and units.
ghost use Rattle.std.specs.Prelude.{◌≡◌, ◌≢◌, ◌↔◌, ◌+◌, ◌*◌, ◌/◌, ◌%◌, ◌<◌, ℕ, ℤ, pos, true, List, Some, is_some};
ghost use Rattle.etx_scaled.specs.Rounding.{IsNearest};
ghost use Rattle.etx_exprs.specs.Values.{divided};
ghost use Rattle.etx_exprs.specs.declared.part.Part.{Part};
ghost use Rattle.etx_exprs.specs.declared.part.Turn.{Turn};
ghost use Rattle.etx_exprs.specs.declared.value.ValueKind.{ValueKind};
ghost use Rattle.etx_exprs.specs.Trees.{Expression, expression_parts, expression_value, IsExpression};
ghost use Rattle.etx_exprs.specs.Feeding.{ExprState, started, fed_of, after, level_value};
ghost use Rattle.etx_exprs.specs.Says.{Says, Took};

use etx_scaled::one_nearest;

/// One thing is true of any part behind any others: that a tree goes on with it, that it ends one, or that it can't follow.
/// So what [`crate::Expr::feed`] says comes exactly where it is true.
pub fn one_thing_is_said_of_a_part()
    ensures { (turn other : Turn) (kind : ValueKind) (parts : List Part) (last : Part) →
        Says turn kind parts last → Says other kind parts last → turn ≡ other }
{}

/// An expression takes all parts of each tree of its kind, one after another, and has then the value of the tree.
pub fn each_tree_is_taken_and_has_its_value()
    ensures taken { (kind : ValueKind) (tree : Expression) → IsExpression kind tree →
        is_some (after (Some (started kind)) (expression_parts tree)) ≡ true }
    ensures value { (kind : ValueKind) (tree : Expression) (s : ExprState) → IsExpression kind tree →
        Took kind (expression_parts tree) s → level_value s.level ≡ expression_value tree }
    ensures says { (kind : ValueKind) (parts : List Part) (s : ExprState) (last : Part) (turn : Turn) → Took kind parts s →
        ((fed_of s last).turn ≡ turn) ↔ Says turn kind parts last }
{}

/// The parts of an expression leave no choice of its value: trees of one kind with the same parts have the same.
pub fn the_parts_have_one_value()
    ensures { (kind : ValueKind) (tree other : Expression) → IsExpression kind tree → IsExpression kind other →
        expression_parts tree ≡ expression_parts other → expression_value tree ≡ expression_value other }
{}

/// TeX converts the whole part of a number and then what remains of it together with the fraction: it comes to the same as
/// one division of all. ("TeX: The Program", section 458.)
pub fn two_steps_convert_alike()
    ensures { (whole fraction num den : ℕ) → 0 < den →
        whole * num / den * 65536 + (num * fraction + 65536 * (whole * num % den)) / den ≡ (whole * 65536 + fraction) * num / den }
{}

/// A quotient is the nearest whole number, halves away from zero, whatever the signs.
pub fn quotients_are_nearest()
    ensures { (z d : ℤ) → d ≢ pos 0 → IsNearest z d (divided z d) }
{
    one_nearest();
}
