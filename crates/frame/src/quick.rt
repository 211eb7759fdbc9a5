// The call: the pass, with all that it found.
ghost use Rattle.std.specs.Prelude.{◌≡◌};
ghost use Rattle.frame.specs.Frame.{frame_of};

use super::Frame;
use super::pass::pass;
use base::Refusal;
use base::xset::x_classes;
use fields::is_framed;
use types::Form;
use types::forms::count_of;
use types::steps::Places;

const LIMIT: usize = 10000;

// 18, 1 and 2, and then the lines.
pub fn frame(form: Form, m: &[u8]) -> Result<Frame, Refusal>
    ensures { result ≡ frame_of form m.now }
{
    if count_of(form) == 0 {
        return Err(Refusal {
            number: 18,
            place: 0,
        });
    }
    if LIMIT < m.len() {
        return Err(Refusal {
            number: 1,
            place: LIMIT,
        });
    }
    if !is_framed(m) {
        return Err(Refusal {
            number: 2,
            place: 0,
        });
    }
    let t = x_classes();
    let places = Places::of(form);
    pass(form, &t, &places, m)
}
