//! Profiles: where the word times of many activities went.

ghost use Rattle.std.specs.Prelude.{◌≡◌, ◌+◌, ◌^◌, ◌<◌, ◌≤◌, IfOk, slice_index, sum};
ghost use Rattle.lgp_trace.specs.Phases.{all_phases};
ghost use Rattle.lgp_trace.specs.Profile.{added_phases, empty_profile, with_activity};

use crate::account::Account;
use crate::phases::{Phases, only_act};
use lgp_word::Address;
use std::alloc::{AllocError, Allocator, Global};
use std::marker::Model;

/// How many words the drum has.
const WORDS: usize = 4096;

/// The word times of many activities by phase, by the address of the order, and those of all else. What is kept takes the same
/// memory however many they are.
#[derive(Drop)]
pub struct Profile<A: Allocator = Global> {
    phases: Phases,
    places: Vec<u64, A>,
    elsewhere: u64,
}

impl<A: Allocator> Model for Profile<A> {
    ghost use Rattle.std.specs.Prelude.{◌≡◌, ◌+◌, ◌^◌, ◌<◌, sum, vec_len};
    ghost use Rattle.lgp_trace.specs.Phases.{all_phases};
    ghost use Rattle.lgp_trace.specs.Profile.{Profiled};

    ghost Value = { Profiled };

    ghost view = { λ p. record {
      phases = p.phases;
      places = p.places.items;
      elsewhere = p.elsewhere;
    } };

    ghost invariant = { λ p. (vec_len p.places ≡ 4096)
        × (sum p.places.items + p.elsewhere ≡ all_phases p.phases)
        × (all_phases p.phases < 2 ^ 64) };
}

impl<A: Allocator> Profile<A> {
    /// A profile of no activity, or a refused growth.
    #[tactic(auto, unfolding(crate::specs::Profile::no_places), using(crate::proofs::Sums::sum_none))]
    pub fn new(alloc: A) -> Result<Profile<A>, AllocError>
        ensures { IfOk result (λ profile. profile ≡ empty_profile) }
    {
        Ok(Profile {
            phases: only_act(0),
            places: vec![in alloc; 0; WORDS]?,
            elsewhere: 0,
        })
    }

    /// Adds an activity by its account.
    pub fn note(&mut self, account: &Account)
        requires { all_phases self.old.phases + all_phases account.now.phases < 2 ^ 64 }
        ensures { self.new ≡ with_activity self.old account.now.place account.now.phases }
    {
        self.add(account.place, account.phases);
    }

    /// Adds an activity by the place of its order and its phases.
    #[inline(always)]
    #[tactic(auto, using(crate::proofs::Sums::sums))]
    pub(crate) fn add(&mut self, place: Option<Address>, more: Phases)
        requires { all_phases self.old.phases + all_phases more < 2 ^ 64 }
        ensures { self.new ≡ with_activity self.old place more }
    {
        let times = more.find + more.take + more.seek + more.act;
        self.phases = added(self.phases, more);
        match place {
            Some(place) => self.places[usize::from(place.number())] += times,
            None => self.elsewhere += times,
        }
    }

    /// The word times by phase. Those at all addresses and elsewhere are together as many.
    pub fn phases(&self) -> Phases
        ensures phases { result ≡ self.now.phases }
        ensures together { sum self.now.places + self.now.elsewhere ≡ all_phases result }
    {
        self.phases
    }

    /// All word times.
    pub fn times(&self) -> u64
        ensures exact { result ≡ all_phases self.now.phases }
        ensures elsewhere { self.now.elsewhere ≤ result }
    {
        let phases = self.phases;
        phases.find + phases.take + phases.seek + phases.act
    }

    /// Forgets all activities.
    pub fn clear(&mut self)
        ensures { self.new ≡ empty_profile }
    {
        self.phases = only_act(0);
        self.places.fill(0);
        self.elsewhere = 0;
    }

    /// The word times of the orders that were at an address.
    pub fn at(&self, place: Address) -> u64
        ensures exact { result ≡ slice_index self.now.places place }
        ensures within { result ≤ all_phases self.now.phases }
    {
        self.places[usize::from(place.number())]
    }

    /// The word times of all activities whose orders were nowhere on the drum.
    pub fn elsewhere(&self) -> u64
        ensures { result ≡ self.now.elsewhere }
    {
        self.elsewhere
    }
}

/// Phases together with others.
#[inline(always)]
fn added(phases: Phases, more: Phases) -> Phases
    requires { all_phases phases + all_phases more < 2 ^ 64 }
    ensures { result ≡ added_phases phases more }
{
    Phases {
        find: phases.find + more.find,
        take: phases.take + more.take,
        seek: phases.seek + more.seek,
        act: phases.act + more.act,
    }
}
