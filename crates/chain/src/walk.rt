// Walks along chains.
ghost use Rattle.std.specs.Prelude.{◌≡◌, ℕ, List, ◌∷◌, map, ◌<◌};
ghost use Rattle.std.specs.Iterator.{YieldsFirst, item_count};
ghost use Rattle.chain.specs.Chain.{chain, Ends};

use crate::follower;
use crate::rows::Link;
use std::marker::Model;

// The numbers of a chain's rows in order.
#[derive(Drop)]
pub struct Walk<'a, R: Link> {
    rows: &'a [R],
    at: u8,
}

// As a list: the rows that are still to come.
impl<'a, R: Link> Model for Walk<'a, R> {
    ghost Value = { List ℕ };

    ghost view = { λ w. chain (w.at ∷ map R.link w.rows.now) };

    ghost invariant = { λ w. Ends (w.at ∷ map R.link w.rows.now) };
}

impl<'a, R: Link> Walk<'a, R> {
    // The chain from that head.
    pub fn new(rows: &'a [R], head: u8) -> Self
        requires { Ends (head ∷ map R.link rows.now) }
        ensures { result ≡ chain (head ∷ map R.link rows.now) }
    {
        Walk { rows, at: head }
    }
}

// The row after row n, with which the chain from row n begins.
fn row_after<R: Link>(rows: &[R], n: u8) -> u8
    requires ends { Ends (n ∷ map R.link rows.now) }
    requires some { 0 < n }
    ensures is { chain (n ∷ map R.link rows.now) ≡ n ∷ chain (result ∷ map R.link rows.now) }
    ensures ends { Ends (result ∷ map R.link rows.now) }
{
    // The head that is handed over stands for none: n is a row.
    follower(rows, n, n)
}

impl<'a, R: Link> Iterator for Walk<'a, R> {
    type Item = u8;

    ghost next_gives = { YieldsFirst (λ w. w) };

    ghost remaining = { item_count (λ w. w) };

    #[tactic(auto, using(crate::proofs::Walks::no_row))]
    fn next(&mut self) -> Option<u8> {
        let n = self.at;
        if n == 0 {
            return None;
        }
        self.at = row_after(self.rows, n);
        Some(n)
    }
}
