//! The ends of a lane. An end is neither copied nor cloned: each call uses it up and gives the next.
ghost use Rattle.std.specs.Prelude.{◌≡◌};
ghost use Rattle.lane.specs.Ends.{lane_of, end_of, answer_of};
ghost use Rattle.lane.specs.declared.refusals.Refusal.TheVariants.{WrongEnd};

use crate::answers::{Ended, PutAnswer, TakeAnswer};
use crate::refusals::Refusal;
use std::marker::PhantomData;

/// Marks the ends of a feeder.
pub struct Feeds;

/// Marks the ends of a drawer.
pub struct Draws;

/// The end of a side that may begin a call.
#[derive(Drop)]
pub struct Idle<S> {
    pub(crate) lane: u32,
    side: PhantomData<S>,
}

/// The end of a side whose call is under way.
#[derive(Drop)]
pub struct Busy<S> {
    pub(crate) lane: u32,
    side: PhantomData<S>,
}

/// The end of a side in either state.
#[derive(Drop)]
pub enum End<S> {
    Idle(Idle<S>),
    Busy(Busy<S>),
}

/// A call that could not begin, since the end does not fit: the end comes back, and the item of a put.
#[derive(Drop)]
pub struct Unbegun<S, T> {
    pub end: Idle<S>,
    pub item: T,
}

/// A step that was not made, since the end does not fit: the end comes back.
#[derive(Drop)]
pub struct NoStep<S> {
    pub end: Busy<S>,
}

/// What a step gives: the busy end while the call goes on, or the idle end with the answer.
// no `Result`: neither of the two is a failure
#[derive(Drop)]
pub enum Stepped<S, A> {
    Going(Busy<S>),
    Over(Idle<S>, Ended<A>),
}

pub type FeederIdle = Idle<Feeds>;

pub type FeederBusy = Busy<Feeds>;

pub type FeederEnd = End<Feeds>;

pub type NoPut<K> = Unbegun<Feeds, K>;

pub type NoPutStep = NoStep<Feeds>;

pub type PutStepped<K> = Stepped<Feeds, PutAnswer<K>>;

pub type DrawerIdle = Idle<Draws>;

pub type DrawerBusy = Busy<Draws>;

pub type DrawerEnd = End<Draws>;

pub type NoTake = Unbegun<Draws, ()>;

pub type NoTakeStep = NoStep<Draws>;

pub type TakeStepped<K> = Stepped<Draws, TakeAnswer<K>>;

impl<S> Idle<S> {
    pub(crate) fn new(lane: u32) -> Idle<S>
        ensures { result.lane ≡ lane }
    {
        Idle {
            lane,
            side: PhantomData,
        }
    }

    // the end of the call that begins
    pub(crate) fn begin(self) -> Busy<S>
        ensures { result.lane ≡ self.lane }
    {
        let Idle { lane, side } = self;
        Busy { lane, side }
    }
}

impl<S> Busy<S> {
    // the end behind the call
    fn over(self) -> Idle<S>
        ensures { result.lane ≡ self.lane }
    {
        let Busy { lane, side } = self;
        Idle { lane, side }
    }

    // what a step gives, by the answer where the call is over
    pub(crate) fn after<A>(self, answer: Option<Ended<A>>) -> Stepped<S, A>
        ensures end { lane_of (end_of result) ≡ self.lane }
        ensures answer { answer_of result ≡ answer }
    {
        match answer {
            None => Stepped::Going(self),
            Some(ended) => Stepped::Over(self.over(), ended),
        }
    }
}

impl<S, T> Unbegun<S, T> {
    /// Why the call could not begin.
    pub fn why(&self) -> Refusal
        ensures { result ≡ WrongEnd }
    {
        Refusal::WrongEnd
    }
}

impl<S> NoStep<S> {
    /// Why the step was not made.
    pub fn why(&self) -> Refusal
        ensures { result ≡ WrongEnd }
    {
        Refusal::WrongEnd
    }
}
