// Chains threaded through the rows of a slice. Rows are numbered from 1, each names the next one's number, and 0 ends a chain.
// A head belongs to whoever keeps the rows: each function is passed it, and the ones that change the chain return the new one. It counts
// as the link of row 0, so that a row that comes first is one that comes behind 0.
// What is asked of rows and head stands in each contract and not in a type of both: such a type would have to show both, since
// callers say what became of the other chains through the same rows.
#![tactic(auto)]

ghost use Rattle.std.specs.Prelude.{◌≡◌, ℕ, ◌<◌, ◌≤◌, [], ◌∷◌, ◌++◌, map, length, nat_le, slice_set};
ghost use Rattle.chain.specs.Times.{times};
ghost use Rattle.chain.specs.Chain.{next, chain, Ends, Row, last, tail, without, inserted, removed, Before, Becomes, Kept, rank_of, by_rank, Place};

pub mod rows;
pub mod walk;

pub use rows::{Link, Linked, Ranked};
use walk::Walk;

// What follows row n; the head follows 0.
fn follower<R: Link>(rows: &[R], head: u8, n: u8) -> u8
    requires { n ≤ length rows.now }
    ensures { result ≡ next (head ∷ map R.link rows.now) n }
{
    if n == 0 {
        return head;
    }
    rows[(n - 1) as usize].next()
}

// Makes `to` follow row n, or become the head where n is 0. Returns the head.
fn lead<R: Link>(rows: &mut [R], head: u8, n: u8, to: u8) -> u8
    requires { n ≤ length rows.old }
    ensures links { result ∷ map R.link rows.new ≡ slice_set (head ∷ map R.link rows.old) n to }
    ensures kept { Kept R.relinked rows.old rows.new }
{
    if n == 0 {
        return to;
    }
    rows[(n - 1) as usize].set_next(to);
    head
}

// Puts row n behind row `before`, or first where that is 0. Returns the head.
fn insert<R: Link>(rows: &mut [R], head: u8, before: u8, n: u8) -> u8
    requires before { before ≤ length rows.old }
    requires row { n ≤ length rows.old }
    ensures links { result ∷ map R.link rows.new ≡ inserted (head ∷ map R.link rows.old) before n }
    ensures kept { Kept R.relinked rows.old rows.new }
{
    let at = follower(rows, head, before);
    let head = lead(rows, head, n, at);
    lead(rows, head, before, n)
}

// Takes out the row behind row `before`, or the first where that is 0. Returns the head.
fn remove<R: Link>(rows: &mut [R], head: u8, before: u8) -> u8
    requires before { before ≤ length rows.old }
    requires row { next (head ∷ map R.link rows.old) before ≤ length rows.old }
    ensures links { result ∷ map R.link rows.new ≡ removed (head ∷ map R.link rows.old) before }
    ensures kept { Kept R.relinked rows.old rows.new }
{
    let n = follower(rows, head, before);
    let at = follower(rows, head, n);
    let head = lead(rows, head, before, at);
    lead(rows, head, n, 0)
}

// Takes the first row off the chain, and leaves it without a link; an empty chain stays as it is. Returns the head.
#[tactic(auto, using(crate::proofs::Walks::first_before, crate::proofs::Walks::without_first, crate::proofs::Walks::none_taken))]
pub fn take_first<R: Link>(rows: &mut [R], head: u8) -> u8
    requires ends { Ends (head ∷ map R.link rows.old) }
    ensures becomes { Becomes (head ∷ map R.link rows.old) (result ∷ map R.link rows.new) (tail (chain (head ∷ map R.link rows.old))) (chain (head ∷ map R.link rows.old)) }
    ensures loose { 0 < head → next (result ∷ map R.link rows.new) head ≡ 0 }
    ensures kept { Kept R.relinked rows.old rows.new }
{
    if head == 0 {
        return 0;
    }
    take_at(rows, head, 0, head)
}

// How many rows the chain has.
#[tactic(auto, using(crate::proofs::Walks::few_rows))]
pub fn count<R: Link>(rows: &[R], head: u8) -> u8
    requires ends { Ends (head ∷ map R.link rows.now) }
    requires short { length rows.now ≤ 255 }
    ensures { result ≡ length (chain (head ∷ map R.link rows.now)) }
{
    // There are at most 255 rows, so the cast loses nothing.
    Walk::new(rows, head).count() as u8
}

// The row before row n, which stands on the chain, or 0.
fn row_before<R: Link>(rows: &[R], head: u8, n: u8) -> u8
    requires ends { Ends (head ∷ map R.link rows.now) }
    requires inside { 0 < times n (chain (head ∷ map R.link rows.now)) }
    ensures { Before (head ∷ map R.link rows.now) n result }
{
    Walk::new(rows, head)
        .take_while(|&at| at != n)
        .last()
        .unwrap_or(0)
}

// Takes row n, which stands behind row `before`, off the chain. Returns the head. This and the like stand apart from the public
// functions over them, so that no proof file hides a change of those.
fn take_at<R: Link>(rows: &mut [R], head: u8, before: u8, n: u8) -> u8
    requires place { Before (head ∷ map R.link rows.old) n before }
    ensures becomes { Becomes (head ∷ map R.link rows.old) (result ∷ map R.link rows.new) (without n (chain (head ∷ map R.link rows.old))) (chain (head ∷ map R.link rows.old)) }
    ensures loose { next (result ∷ map R.link rows.new) n ≡ 0 }
    ensures kept { Kept R.relinked rows.old rows.new }
{
    remove(rows, head, before)
}

// Takes row n, which stands on the chain, off it, and leaves it without a link. Returns the head.
pub fn take<R: Link>(rows: &mut [R], head: u8, n: u8) -> u8
    requires ends { Ends (head ∷ map R.link rows.old) }
    requires inside { 0 < times n (chain (head ∷ map R.link rows.old)) }
    ensures becomes { Becomes (head ∷ map R.link rows.old) (result ∷ map R.link rows.new) (without n (chain (head ∷ map R.link rows.old))) (chain (head ∷ map R.link rows.old)) }
    ensures loose { next (result ∷ map R.link rows.new) n ≡ 0 }
    ensures kept { Kept R.relinked rows.old rows.new }
{
    let before = row_before(rows, head, n);
    take_at(rows, head, before, n)
}

// The last row of the chain, or 0.
fn last_row<R: Link>(rows: &[R], head: u8) -> u8
    requires ends { Ends (head ∷ map R.link rows.now) }
    ensures { result ≡ last 0 (chain (head ∷ map R.link rows.now)) }
{
    Walk::new(rows, head).last().unwrap_or(0)
}

// Puts row n behind the last row of the chain. Returns the head.
fn append<R: Link>(rows: &mut [R], head: u8, last_row: u8, n: u8) -> u8
    requires ends { Ends (head ∷ map R.link rows.old) }
    requires last { last_row ≡ last 0 (chain (head ∷ map R.link rows.old)) }
    requires row { Row (length rows.old) n }
    requires outside { times n (chain (head ∷ map R.link rows.old)) ≡ 0 }
    ensures becomes { Becomes (head ∷ map R.link rows.old) (result ∷ map R.link rows.new) (chain (head ∷ map R.link rows.old) ++ (n ∷ [])) (n ∷ chain (head ∷ map R.link rows.old)) }
    ensures kept { Kept R.relinked rows.old rows.new }
{
    insert(rows, head, last_row, n)
}

// Puts row n last on the chain. Returns the head.
pub fn put_last<R: Link>(rows: &mut [R], head: u8, n: u8) -> u8
    requires ends { Ends (head ∷ map R.link rows.old) }
    requires row { Row (length rows.old) n }
    requires outside { times n (chain (head ∷ map R.link rows.old)) ≡ 0 }
    ensures becomes { Becomes (head ∷ map R.link rows.old) (result ∷ map R.link rows.new) (chain (head ∷ map R.link rows.old) ++ (n ∷ [])) (n ∷ chain (head ∷ map R.link rows.old)) }
    ensures kept { Kept R.relinked rows.old rows.new }
{
    let end = last_row(rows, head);
    append(rows, head, end, n)
}

// The rank of row n.
fn rank_at<R: Link + Ranked>(rows: &[R], n: u8) -> u16
    requires { Row (length rows.now) n }
    ensures { result ≡ rank_of (map R.key rows.now) n }
{
    rows[(n - 1) as usize].rank()
}

// Whether a row of the one rank goes behind a row of the other.
fn goes_behind(rank: u16, other: u16) -> bool
    ensures { result ≡ nat_le rank other }
{
    rank <= other
}

// The row behind which row n belongs by its rank, or 0. This is no `take_while`, since what `rank_at` asks has no proof at each turn of
// a chain of iterators.
fn find_place<R: Link + Ranked>(rows: &[R], head: u8, n: u8) -> u8
    requires ends { Ends (head ∷ map R.link rows.now) }
    requires row { Row (length rows.now) n }
    ensures { Place (head ∷ map R.link rows.now) (map R.key rows.now) n result }
{
    let rank = rank_at(rows, n);
    let mut before = 0;
    for at in Walk::new(rows, head) {
        if !goes_behind(rank, rank_at(rows, at)) {
            return before;
        }
        before = at;
    }
    before
}

// Puts row n behind the row behind which it belongs by its rank. Returns the head.
fn put_at<R: Link + Ranked>(rows: &mut [R], head: u8, before: u8, n: u8) -> u8
    requires place { Place (head ∷ map R.link rows.old) (map R.key rows.old) n before }
    requires row { Row (length rows.old) n }
    requires outside { times n (chain (head ∷ map R.link rows.old)) ≡ 0 }
    ensures becomes { Becomes (head ∷ map R.link rows.old) (result ∷ map R.link rows.new) (by_rank (map R.key rows.old) n (chain (head ∷ map R.link rows.old))) (n ∷ chain (head ∷ map R.link rows.old)) }
    ensures kept { Kept R.relinked rows.old rows.new }
{
    insert(rows, head, before, n)
}

// Puts row n on the chain before the first row of a smaller rank, so behind those of its own. Returns the head.
pub fn put_by_rank<R: Link + Ranked>(rows: &mut [R], head: u8, n: u8) -> u8
    requires ends { Ends (head ∷ map R.link rows.old) }
    requires row { Row (length rows.old) n }
    requires outside { times n (chain (head ∷ map R.link rows.old)) ≡ 0 }
    ensures becomes { Becomes (head ∷ map R.link rows.old) (result ∷ map R.link rows.new) (by_rank (map R.key rows.old) n (chain (head ∷ map R.link rows.old))) (n ∷ chain (head ∷ map R.link rows.old)) }
    ensures kept { Kept R.relinked rows.old rows.new }
{
    let before = find_place(rows, head, n);
    put_at(rows, head, before, n)
}
