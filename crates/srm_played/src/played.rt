//! Playing scripts.

ghost use Rattle.std.specs.Prelude.{◌≡◌, ◌⊎◌, ◌<◌, ◌↔◌, Err, length, All, IfOk, IfErr};
ghost use Rattle.srm_world.specs.Traces.{IsRoster, started};
ghost use Rattle.srm_world.specs.Events.{IsTimely};
ghost use Rattle.srm_played.specs.Plays.{Plays, unplayed};
ghost use Rattle.srm_script.specs.declared.fault.ScriptFault.TheVariants.{Memory};
ghost use Rattle.srm_played.specs.declared.fault.PictureFault.TheVariants.{Script as OfScript, TooManyEvents};

use crate::fault::PictureFault;
use crate::hearing::advance;
use crate::limits::MOST_EVENTS;
use srm_agent::Config;
use srm_picture::{Arrival, Picture, Subject};
use srm_script::{EntryPrinter, Script, ScriptFault, print_newest};
use srm_timers::Listed;
use srm_world::{Event, World};
use std::alloc::{AllocError, Global};
use std::marker::Model;

/// A world that has played a script to its end. Contracts see what happened, and which datagrams came in which entries.
#[derive(Drop)]
pub struct Played {
    world: World<Listed>,
    arrivals: Vec<Arrival>,
    /// The lines of each entry, as `srm world` prints them with timers.
    lines: Vec<Vec<u8>>,
}

impl Model for Played {
    ghost use Rattle.srm_played.specs.Plays.{PlayedContent};
    ghost use Rattle.srm_played.specs.Played.{content_of, IsPlayed};

    ghost Value = { PlayedContent };

    ghost view = { content_of };

    ghost invariant = { IsPlayed };
}

/// Plays a script to its end. The caller shows that it is as [`read_script`](srm_script::read_script) returns it.
///
/// Fails with [`PictureFault::TooManyEvents`] if it has more than [`MOST_EVENTS`] events, before it plays any, and if out of memory.
pub fn play(alloc: Global, script: Script) -> Result<Played, PictureFault>
    requires roster { IsRoster (started script.configs.items) }
    requires words { length script.words.items ≡ length script.configs.items }
    requires timely { All IsTimely script.events.items }
    ensures refused { (result ≡ Err TooManyEvents) ↔ (MOST_EVENTS < length script.events.items) }
    ensures plays { IfOk result (Plays (unplayed (started script.configs.items)) script.events.items) }
    ensures memory { IfErr result (λ fault. (fault ≡ TooManyEvents) ⊎ (fault ≡ OfScript Memory)) }
{
    if script.events.len() > MOST_EVENTS {
        return Err(PictureFault::TooManyEvents);
    }
    let Script {
        configs,
        words,
        events,
        ..
    } = script;
    let mut played = Played::new(alloc, configs, words)?;
    played.run(alloc, events)?;
    Ok(played)
}

impl Played {
    ghost use Rattle.std.specs.Prelude.{◌≡◌, length, All, IfOk, IfErr, OnOk};
    ghost use Rattle.srm_world.specs.Traces.{IsRoster, started};
    ghost use Rattle.srm_world.specs.Events.{IsTimely};
    ghost use Rattle.srm_picture.specs.Arrows.{AreArrivals};
    ghost use Rattle.srm_picture.specs.Pictures.{Depicts};
    ghost use Rattle.srm_played.specs.Plays.{Plays, PlaysOne, unplayed};

    /// Makes the picture of what happened. Fails only if out of memory.
    pub fn picture(&self, alloc: Global) -> Result<Picture, AllocError>
        ensures draws { IfOk result (Depicts self.now.trace.entries self.now.arrivals) }
        ensures heard { AreArrivals self.now.trace.entries self.now.arrivals }
    {
        Picture::of(
            alloc,
            self.world.trace().entries(),
            self.arrivals.as_slice(),
        )
    }

    /// Returns what a drawing needs besides the shapes of the picture: the number of members, the entries and their lines. Takes no
    /// memory.
    pub fn subject(&self) -> Subject<'_>
        ensures members { result.members ≡ length self.now.trace.starts }
        ensures entries { result.entries.now ≡ self.now.trace.entries }
    {
        Subject {
            members: self.members(),
            entries: self.world.trace().entries(),
            lines: self.lines.as_slice(),
        }
    }

    /// How many members there are, by the settings of the first.
    fn members(&self) -> u8
        ensures { result ≡ length self.now.trace.starts }
    {
        self.world.trace().starts()[0].config.members()
    }

    /// Makes a world that has played nothing. Fails only if out of memory.
    fn new(alloc: Global, configs: Vec<Config>, words: Vec<Listed>) -> Result<Played, AllocError>
        requires roster { IsRoster (started configs.items) }
        requires words { length words.items ≡ length configs.items }
        ensures { IfOk result (λ played. played ≡ unplayed (started configs.items)) }
    {
        Ok(Played {
            world: World::new(alloc, configs, words)?,
            arrivals: Vec::new(alloc),
            lines: Vec::new(alloc),
        })
    }

    /// Plays events in order. Fails only if out of memory.
    #[tactic(auto, using(crate::proofs::Playing::reaches_none, crate::proofs::Playing::reaches_more, crate::proofs::Playing::reaches_all))]
    fn run(&mut self, alloc: Global, events: Vec<Event>) -> Result<(), ScriptFault>
        requires { All IsTimely events.items }
        ensures plays { OnOk result (Plays self.old events.items self.new) }
        ensures memory { IfErr result (λ fault. fault ≡ Memory) }
    {
        let mut printer = EntryPrinter::new(true);
        for event in events {
            self.apply(alloc, &mut printer, event)?;
        }
        Ok(())
    }

    /// Plays an event, and keeps the lines of its entry.
    fn apply(
        &mut self,
        alloc: Global,
        printer: &mut EntryPrinter,
        event: Event,
    ) -> Result<(), ScriptFault>
        requires { IsTimely event }
        ensures plays { OnOk result (PlaysOne self.old event self.new) }
        ensures memory { IfErr result (λ fault. fault ≡ Memory) }
    {
        if !advance(&mut self.world, &mut self.arrivals, event)? {
            return Ok(());
        }
        keep_lines(alloc, &self.world, printer, &mut self.lines)
    }
}

/// Keeps the lines of a world's newest entry.
fn keep_lines(
    alloc: Global,
    world: &World<Listed>,
    printer: &mut EntryPrinter,
    lines: &mut Vec<Vec<u8>>,
) -> Result<(), ScriptFault>
    ensures { IfErr result (λ fault. fault ≡ Memory) }
{
    let mut printed = Vec::new(alloc);
    // What is printed into memory fails only without it.
    if print_newest(world, printer, &mut printed).is_err() {
        return Err(ScriptFault::Memory);
    }
    Ok(lines.push(printed).map_err(AllocError::from)?)
}
