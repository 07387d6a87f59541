// Blocks cut from a message that lies in parts.
ghost use Rattle.std.specs.Prelude.{◌≡◌, ◌++◌, ℕ, List, length, replicate};
ghost use Rattle.octets.specs.Window.{window};

use crate::window::{clear, lay};
use std::marker::Model;

// A message in four parts that lie apart: `head`, `left`, `right` and `tail`, one after the other. They are read where they lie.
#[derive(Drop)]
pub struct Parts<'a> {
    head: &'a [u8],
    left: &'a [u8],
    right: &'a [u8],
    tail: &'a [u8],
}

impl<'a> Model for Parts<'a> {
    ghost Value = { List ℕ };

    ghost view = { λ p. p.head.now ++ (p.left.now ++ p.right.now) ++ p.tail.now };
}

impl<'a> Parts<'a> {
    pub fn new(head: &'a [u8], left: &'a [u8], right: &'a [u8], tail: &'a [u8]) -> Parts<'a>
        ensures { result ≡ head.now ++ (left.now ++ right.now) ++ tail.now }
    {
        Parts {
            head,
            left,
            right,
            tail,
        }
    }

    // Lays the parts over a block of zeros.
    fn lay_over(&self, block: &mut [u8], start: usize)
        requires { block.old ≡ replicate (length block.old) 0 }
        ensures { block.new ≡ window self.now start (length block.old) }
    {
        let after_head = self.head.len() as u128;
        let after_left = after_head + self.left.len() as u128;
        let after_right = after_left + self.right.len() as u128;
        lay(block, start, 0, self.head);
        lay(block, start, after_head, self.left);
        lay(block, start, after_left, self.right);
        lay(block, start, after_right, self.tail);
    }

    // Fills a block with the bytes of the message from place `start` on, 0 where the message has ended.
    pub fn gather(&self, block: &mut [u8], start: usize)
        ensures { block.new ≡ window self.now start (length block.old) }
    {
        clear(block);
        self.lay_over(block, start);
    }
}
