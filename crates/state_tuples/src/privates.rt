// Expansions that are made anew at each call.

ghost use Rattle.std.specs.Prelude.{◌≡◌};

use crate::cascades::Cascade;
use crate::expanders::Expander;
use crate::joins::Asked;
use crate::onward::Onward;
use crate::stages::{end_at, put_moves};
use crate::tuples::{Tuple, TupleArc};
use std::alloc::{AllocError, Global};
use std::marker::Model;

/// An [`Expander`] of one cascade that keeps no moves between its calls, only the memory for them.
#[derive(Drop)]
pub struct Private<'a> {
    cascade: &'a Cascade,
    spare: Vec<TupleArc>,
}

impl<'a> Model for Private<'a> {
    ghost use Rattle.state_tuples.specs.Cascades.{Cascaded, IsSound};

    ghost Value = { Cascaded };

    ghost view = { λ p. p.cascade.now };

    ghost invariant = { λ p. IsSound p.cascade.now };
}

impl<'a> Private<'a> {
    ghost use Rattle.state_tuples.specs.Cascades.{IsSound};

    /// An expander of this cascade. It takes no memory yet.
    pub fn new(alloc: Global, cascade: &'a Cascade) -> Private<'a>
        ensures value { result ≡ cascade.now }
        ensures ready { IsSound result }
    {
        let _start = cascade.start();
        Private {
            cascade,
            spare: Vec::new(alloc),
        }
    }
}

impl<'a> Expander for Private<'a> {
    ghost use Rattle.std.specs.Prelude.{◌≡◌, ◌∷◌, [], None};
    ghost use Rattle.state_tuples.specs.Cascades.{IsSound};
    ghost use Rattle.state_tuples.specs.OneCascade.{sound, own_numbers, stays, on_self, on_again};

    ghost cascades = { λ p. p ∷ [] };

    ghost is_ready = { IsSound };

    ghost goes_on = { λ p q. q ≡ p };

    ghost gives_up = { λ p q. q ≡ p };

    ghost calls = { λ p. None };

    fn arcs_on(
        &mut self,
        t: &Tuple,
        label: u16,
        into: &mut Vec<TupleArc>,
    ) -> Result<(), AllocError> {
        let cascade = self.cascade;
        if let Err(e) = put_moves(cascade, t, Asked::Only(label), into, &mut self.spare) {
            into.clear();
            return Err(e);
        }
        Ok(())
    }

    fn finality(&mut self, t: &Tuple) -> Result<Option<u64>, AllocError> {
        let cascade = self.cascade;
        Ok(end_at(cascade, t))
    }

    fn may_read(&self, t: &Tuple, label: u16) -> bool {
        self.cascade.may_read(t, label)
    }

    fn onward(&self, t: &Tuple) -> Onward {
        self.cascade.onward(t)
    }

    ghost sound = { sound };

    ghost own_numbers = { own_numbers };

    ghost on_stays = { stays };

    ghost up_stays = { stays };

    ghost on_self = { on_self };

    ghost on_again = { on_again };
}
