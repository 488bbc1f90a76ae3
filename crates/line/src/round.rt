// What goes over the heads of a line: each hears a byte or is told a telegram, and their replies are counted, and laid in the space where there is
// just one.
ghost use Rattle.std.specs.Prelude.{◌≡◌, ◌+◌, ◌<◌, ◌^◌, map, length};
ghost use Rattle.head.specs.Hear.{step_of, tell_of};
ghost use Rattle.line.specs.Round.{no_reply, counted, tally, replies_by, laid_for};

use head::{calls, hear};
use state::parts::Head;

// The replies so far: how many, and the last, which is read only where it is the only one.
#[repr(C)]
#[derive(Clone, Copy)]
pub struct Replies {
    pub count: usize,
    pub last: [u8; 10],
}

impl Replies {
    pub(crate) fn none() -> Replies
        ensures { result ≡ no_reply }
    {
        Replies {
            count: 0,
            last: [0; 10],
        }
    }

    // What one head said, counted with the others.
    fn with(self, reply: Option<[u8; 10]>) -> Replies
        requires { self.count + 1 < 2 ^ 64 }
        ensures { result ≡ counted self reply }
    {
        match reply {
            Some(ten) => Replies {
                count: self.count + 1,
                last: ten,
            },
            None => self,
        }
    }
}

// A byte for each of these heads. Each arm writes its head in place, so that a byte that ends no telegram, as nine of ten do, writes the bytes
// gathered and nothing else.
pub(crate) fn heard(heads: &mut [Head], b: u8, at: u32) -> Replies
    ensures value { result ≡ tally (replies_by (λ h. step_of h b at) (length heads.old) heads.old) }
    ensures heads_after { heads.new ≡ map (λ h. (step_of h b at).head) heads.old }
{
    let mut replies = Replies::none();
    for h in heads.iter_mut() {
        let g = hear::gather(h.ear, b, at);
        match g.ten {
            Some(ten) => {
                let s = hear::tell(*h, ten, at);
                replies = replies.with(s.reply);
                *h = s.head;
            }
            None => h.ear = g.ear,
        }
    }
    replies
}

// A whole telegram for each of these heads.
pub fn told(heads: &mut [Head], ten: [u8; 10], at: u32) -> Replies
    ensures { (result ≡ tally (replies_by (λ h. tell_of h ten at) (length heads.old) heads.old)) × (heads.new ≡ map (λ h. (tell_of h ten at).head) heads.old) }
{
    let mut replies = Replies::none();
    for h in heads.iter_mut() {
        let said = hear::tell(*h, ten, at);
        replies = replies.with(said.reply);
        *h = said.head;
    }
    replies
}

// One reply stands in the space; of none, and of several at once, no byte does.
pub(crate) fn lay(space: &mut [u8], replies: Replies)
    ensures { space.new ≡ laid_for replies space.old }
{
    if replies.count == 1 {
        calls::lay(space, replies.last);
    }
}
