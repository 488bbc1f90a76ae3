// The operating mode, 28h: which value of it is alpha-numeric display.
ghost use Rattle.std.specs.Prelude.{◌≡◌, Bool};
ghost use Rattle.state.specs.Mode.{is_display};

// Alpha-numeric display: both set points are shown as they were sent, and no position is aimed at.
const DISPLAY: u32 = 3;

// Whether this value of 28h is alpha-numeric display.
#[tactic(auto, unfolding(crate::specs::Mode::is_display))]
pub fn is_display(mode: u32) -> bool
    ensures { result ≡ is_display mode }
{
    mode == DISPLAY
}
