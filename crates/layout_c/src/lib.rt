// `layout_fill` of `layout` for C: tests/layout.c and compare/.

#![tactic(auto)]

ghost use Rattle.std.specs.Prelude.{◌≡◌};
ghost use Rattle.layout.specs.Laid.{laid_of};

use layout::Laid;

// Fills the lent structs.
#[unsafe(no_mangle)]
pub extern "C" fn layout_fill(lent: &mut Laid)
    ensures { lent.new ≡ laid_of }
{
    layout::layout_fill(lent)
}
