// Rows of chains.
ghost use Rattle.std.specs.Prelude.{◌≡◌, ℕ};
ghost use Rattle.chain.specs.Ranks.{rank_or_none};
ghost use Rattle.std.proofs.Common.{rules};

// A row that says which row it names, and can be told another.
pub trait Link {
    ghost link: { Self → ℕ };

    // The row with another link, and nothing else changed.
    ghost relinked: { Self → ℕ → Self };

    fn next(&self) -> u8
        ensures { result ≡ link self.now };

    fn set_next(&mut self, n: u8)
        ensures { self.new ≡ relinked self.old n };

    ghost reads: { (r : Self) (n : ℕ) → link (relinked r n) ≡ n };

    ghost again: { (r : Self) (m n : ℕ) → relinked (relinked r m) n ≡ relinked r n };

    ghost same: { (r : Self) → relinked r (link r) ≡ r };
}

// What has a rank of 16 bits.
pub trait Ranked {
    ghost key: { Self → ℕ };

    fn rank(&self) -> u16
        ensures { result ≡ key self.now };
}

// Nothing has the rank 0.
impl<T: Ranked> Ranked for Option<T> {
    ghost key = { rank_or_none T.key };

    fn rank(&self) -> u16 {
        match self {
            Some(item) => item.rank(),
            None => 0,
        }
    }
}

// An item, and the number of the next row on its chain, or 0: rows are numbered from 1, and every chain ends in 0.
#[derive(Clone, Copy)]
pub struct Linked<T> {
    pub item: T,
    pub next: u8,
}

impl<T> Link for Linked<T> {
    ghost link = { λ r. r.next };

    ghost relinked = { λ r n. record { item = r.item; next = n } };

    ghost reads = { Prim.search rules };

    ghost again = { Prim.search rules };

    ghost same = { Prim.search rules };

    fn next(&self) -> u8 {
        self.next
    }

    fn set_next(&mut self, n: u8) {
        self.next = n;
    }
}

// A row has the rank of its item.
impl<T: Ranked> Ranked for Linked<T> {
    ghost key = { λ r. T.key r.item };

    fn rank(&self) -> u16 {
        self.item.rank()
    }
}
