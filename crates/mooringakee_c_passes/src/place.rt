//! One agent's place at a container.

ghost use Rattle.std.specs.Prelude.{◌≡◌, IfOk, IfSome};
ghost use Rattle.mooringakee_c_passes.specs.{Ending.{TellsRows}, Places.{IsUsablePlace, SettlesPlace, backlog_of}};

use crate::answer::Answer;
use crate::ending::{Places, close, leave};
use crate::on_domain::OnDomain;
use given_back::Unfinished;
use orc_any_domain::RowCounts;
use orc_domain::{OrcDomain, OrcPass};
use orc_heap::Discipline;
use std::alloc::Global;
use std::sync::Arc;

/// An agent's place at a container: its share of it and of the places to which passes are given back, its pass, and how many turns
/// a call has.
#[derive(Drop)]
pub struct AgentPlace<C, G, P> {
    pub(crate) container: Arc<C, Global>,
    pub(crate) places: Arc<G, Global>,
    pub(crate) pass: P,
    pub(crate) turns: u64,
}

/// A place at a container over a domain whose rows are reclaimed.
pub(crate) type AgentPlaceOn<D, C> = AgentPlace<C, Places<D>, OrcPass<D>>;

impl<D: Discipline, C: OnDomain<OrcDomain<D>>> AgentPlaceOn<D, C> {
    // Takes in what was handed over to the pass, and works through its retired rows.
    pub(crate) fn settle(&mut self) -> Answer
        requires { IsUsablePlace (C.domain_of self.old.container.value) self.old }
        ensures place { IsUsablePlace (C.domain_of self.old.container.value) self.new }
        ensures answer { SettlesPlace (C.domain_of self.old.container.value) self.old result self.new }
    {
        let domain = self.container.domain();
        domain.drain(&mut self.pass);
        if domain.backlog(&self.pass) == 0 {
            Answer::Done
        } else {
            Answer::Kept
        }
    }

    // How many retired rows the pass has to work through.
    pub(crate) fn backlog(&self) -> u32
        requires { IsUsablePlace (C.domain_of self.now.container.value) self.now }
        ensures { result ≡ backlog_of self.now.pass }
    {
        self.container.domain().backlog(&self.pass)
    }
}

impl<D: Discipline, C: OnDomain<OrcDomain<D>> + Drop> AgentPlaceOn<D, C> {
    // Gives the pass up.
    pub(crate) fn leave(self)
        requires { IsUsablePlace (C.domain_of self.container.value) self }
    {
        let AgentPlace {
            container,
            places,
            pass,
            turns: _,
        } = self;
        leave(container.domain(), places, pass);
    }

    // Gives the pass up. The last one to do so brings the container to rest, and tells of its rows.
    pub(crate) fn close(self, alloc: Global) -> Result<Option<RowCounts>, Unfinished>
        requires { IsUsablePlace (C.domain_of self.container.value) self }
        ensures { IfOk result (λ told. IfSome told (λ counts. TellsRows (C.domain_of self.container.value) self.places.value counts)) }
    {
        let AgentPlace {
            container,
            places,
            pass,
            turns: _,
        } = self;
        close(alloc, container.domain(), places, pass)
    }
}
