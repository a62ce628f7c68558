//! What holds of the ligatures of fonts.
ghost use Rattle.std.specs.Prelude.{ℕ, ◌≡◌, ◌≤◌};
ghost use Rattle.etx_matter.specs.declared.font.LigItem.{LigItem};
ghost use Rattle.etx_matter.specs.Ligatures.{last, deepest};

use etx_matter::Font;

/// What two neighbours come to in a font is found with as many pairs one within the other as the definition looks at;
/// to look at more changes nothing.
pub fn more_depth_changes_nothing(font: &Font)
    ensures { (depth : ℕ) (x y : LigItem) → deepest font.now.info ≤ depth → last font.now.info depth x y ≡ last font.now.info (deepest font.now.info) x y }
{
    let _info = font.info();
}
