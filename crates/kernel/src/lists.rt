// Listing the tasks of a kernel.
ghost use Rattle.std.specs.Prelude.{◌≡◌};
ghost use Rattle.listing.specs.Listed.{listed};
ghost use Rattle.kernel.specs.Listing.{list_answer};
ghost use Rattle.kernel.specs.View.{state};

use super::phases::{Kernel, Listable};
use calls::Refusal;
use listing::Listed;

impl<P: Listable> Kernel<P> {
    // Lists the tasks by falling priority, one to a row. Fewer than 32 rows are refused and stay as they were; else the answer is
    // how many were written, and later rows stay.
    pub fn list(&self, rows: &mut [Listed]) -> Result<u32, Refusal>
        ensures answer { result ≡ list_answer (state self.now) rows.old }
        ensures rows { rows.new ≡ listed (state self.now) rows.old }
    {
        let count = listing::list(&self.tables, rows).ok_or(Refusal::TooFewRows)?;
        Ok(u32::from(count))
    }
}
