//! What the replies of a run come to in numbers.

ghost use Rattle.std.specs.Prelude.{◌≡◌, ◌+◌, ◌*◌, ◌^◌, ◌<◌, ◌≤◌, length, sum};
ghost use Rattle.cal_program.specs.Summary.{answer_count, refusal_count, transit_count, shown_bytes, shown_count, summary_of};

use cal_transport::{Replies, Reply};

/// What replies come to.
#[derive(Clone, Copy, Debug, PartialEq, Eq)]
pub struct Summary {
    /// How many replies answer commands.
    pub answered: usize,
    /// How many of these are refusals.
    pub refused: usize,
    /// How many replies tell a chunk in transit.
    pub transit: usize,
    /// The sum of all bytes that reads were answered with.
    pub sum: usize,
}

impl Summary {
    /// What these replies come to. They show so few bytes that the sum can be told.
    pub fn of(replies: &Replies<Reply>) -> Summary
        requires few { shown_count replies.now.items < 2 ^ 32 }
        ensures value { result ≡ summary_of replies.now.items }
    {
        let mut summary = Summary {
            answered: 0,
            refused: 0,
            transit: 0,
            sum: 0,
        };
        for place in 0..replies.len() {
            let reply = replies.get(place).unwrap();
            summary.add(reply);
        }
        summary
    }

    /// Counts one more reply.
    fn add(&mut self, reply: &Reply)
        requires answered_fits { self.old.answered + 1 < 2 ^ 64 }
        requires refused_fits { self.old.refused + 1 < 2 ^ 64 }
        requires transit_fits { self.old.transit + 1 < 2 ^ 64 }
        requires sum_fits { self.old.sum + 255 * length (shown_bytes reply.now) < 2 ^ 64 }
        ensures answered { self.new.answered ≡ self.old.answered + answer_count reply.now }
        ensures refused { self.new.refused ≡ self.old.refused + refusal_count reply.now }
        ensures transit { self.new.transit ≡ self.old.transit + transit_count reply.now }
        ensures total { self.new.sum ≡ self.old.sum + sum (shown_bytes reply.now) }
        ensures bound { self.new.sum ≤ self.old.sum + 255 * length (shown_bytes reply.now) }
    {
        match reply {
            Reply::Transit { .. } => self.transit += 1,
            Reply::Refused(_) => {
                self.answered += 1;
                self.refused += 1;
            }
            Reply::Shown(bytes) => {
                self.answered += 1;
                self.sum += byte_sum(bytes.as_slice());
            }
            Reply::Loaned(_)
            | Reply::Written
            | Reply::Sent(_)
            | Reply::Received(_)
            | Reply::Released
            | Reply::Reclaimed(_)
            | Reply::Discarded
            | Reply::Counted(_) => self.answered += 1,
        }
    }
}

/// The sum of bytes that are few enough for it.
fn byte_sum(bytes: &[u8]) -> usize
    requires few { 255 * length bytes.now < 2 ^ 64 }
    ensures value { result ≡ sum bytes.now }
    ensures bound { result ≤ 255 * length bytes.now }
{
    let mut sum = 0;
    for byte in bytes {
        sum += *byte as usize;
    }
    sum
}
