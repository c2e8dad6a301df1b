//! What is of one index by its type, so that it is known of what comes out of a lock or back from a
//! thread.
ghost use Rattle.std.specs.Prelude.{◌≡◌};
ghost use Rattle.xindex_core.specs.Naming.{IsKeeperOfName, IsKeeperOfName-prop};
ghost use Rattle.xindex_core.specs.Naming.{IsPassOfName, IsPassOfName-prop};

use crate::keeper::Keeper;
use crate::naming::Name;
use crate::pass::Pass;
use std::marker::PhantomData;

/// A keeper of the index with the name `N`.
#[derive(Drop)]
pub struct NamedKeeper<N: Name> {
    keeper: Keeper,
    name: PhantomData<N>,
    ghost of: { IsKeeperOfName N.table N.opening keeper } by { IsKeeperOfName-prop N.table N.opening keeper },
}

/// A pass of the index with the name `N`, between two calls.
#[derive(Drop)]
pub struct NamedPass<N: Name> {
    pass: Pass,
    name: PhantomData<N>,
    ghost of: { IsPassOfName N.table N.opening pass } by { IsPassOfName-prop N.table N.opening pass },
}

impl<N: Name> NamedKeeper<N> {
    /// The keeper, as one of its index.
    pub fn new(keeper: Keeper) -> NamedKeeper<N>
        requires { IsKeeperOfName N.table N.opening keeper }
        ensures { result.keeper ≡ keeper }
    {
        NamedKeeper {
            keeper,
            name: PhantomData,
        }
    }

    /// The keeper again.
    pub fn into_inner(self) -> Keeper
        ensures same { result ≡ self.keeper }
        ensures of { IsKeeperOfName N.table N.opening result }
    {
        let NamedKeeper { keeper, name: _ } = self;
        keeper
    }
}

impl<N: Name> NamedPass<N> {
    /// The pass, as one of its index.
    pub fn new(pass: Pass) -> NamedPass<N>
        requires { IsPassOfName N.table N.opening pass }
        ensures { result.pass ≡ pass }
    {
        NamedPass {
            pass,
            name: PhantomData,
        }
    }

    /// The pass again.
    pub fn into_inner(self) -> Pass
        ensures same { result ≡ self.pass }
        ensures of { IsPassOfName N.table N.opening result }
    {
        let NamedPass { pass, name: _ } = self;
        pass
    }
}
