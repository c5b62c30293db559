// A kernel and its three phases, of which each is moved into the next.
ghost use Rattle.std.specs.Prelude.{◌≡◌};
ghost use Rattle.tables.specs.View.{view};
ghost use Rattle.kernel.specs.View.{state};

use std::marker::PhantomData;
use tables::store::Tables;

// Tasks are created, and no call is taken.
#[derive(Drop)]
pub struct Furnishing;

// Calls are taken.
#[derive(Drop)]
pub struct Started;

// No call is taken any more.
#[derive(Drop)]
pub struct Stopped;

// A kernel in the phase P.
#[derive(Drop)]
pub struct Kernel<P> {
    pub(crate) tables: Tables,
    pub(crate) phase: PhantomData<P>,
}

impl<P> Kernel<P> {
    // A kernel with these tables.
    pub(crate) fn with(tables: Tables) -> Self
        ensures { state result ≡ view tables }
    {
        Kernel {
            tables,
            phase: PhantomData,
        }
    }
}

// A phase in which the tasks can be listed.
pub trait Listable {}

impl Listable for Started {}

impl Listable for Stopped {}
