ghost use Rattle.std.specs.Prelude.{◌≡◌, MatchOption};
ghost use Rattle.envy_mirror.specs.Asking.{Asked, replied};
ghost use Rattle.envy_mirror.specs.Pair.{is_good, IsSide};
ghost use Rattle.envy_mirror.specs.Reviving.{cut_side};

use crate::call::{Call, Kind};
use crate::standing::Standing;
use envy_base::Bench;
use envy_memory::Memory;
use std::marker::Model;

/// A memory, and what it is good for.
pub struct Half<B: Bench> {
    pub memory: Memory<B>,
    pub standing: Standing,
}

impl<B: Bench> Model for Half<B> {
    ghost use Rattle.envy_mirror.specs.Pair.{Side};

    ghost Value = { Side };

    ghost view = { λ a. record { memory = a.memory; standing = a.standing } };
}

impl<B: Bench> Half<B> {
    pub fn is_good(&self) -> bool
        ensures { result ≡ is_good self.now }
    {
        self.standing == Standing::Good
    }

    /// Makes the call, where the side is Good. One that is off then is Gone.
    pub fn ask<C: Call>(&mut self, call: &C) -> Option<C::Told>
        ensures asked { Asked (C.command call.now) (replied C.reply result) self.old self.new }
        ensures does { MatchOption result (Unit {0}) (λ told. C.Does call.now told self.old.memory self.new.memory) }
    {
        if self.standing != Standing::Good {
            return None;
        }
        let told = call.make(&mut self.memory);
        if C::kind(&told) == Kind::Off {
            self.standing = Standing::Gone;
        }
        Some(told)
    }

    /// Cuts power by hand, where there is any.
    pub fn cut(&mut self)
        requires { IsSide self.old }
        ensures { self.new ≡ cut_side self.old }
    {
        if self.standing != Standing::Gone {
            self.memory.cut_now();
            self.standing = Standing::Gone;
        }
    }
}
