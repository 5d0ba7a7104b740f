// The tables of the receiving side, turned to the parameters of a symbol.
ghost use Rattle.std.specs.Prelude.{◌≡◌, IfOk, IfSome};
ghost use Rattle.mode_set.specs.Entries.{with_entry};
ghost use Rattle.mode_set.specs.StreamTable.{need};
ghost use Rattle.inner_chain.specs.CostTables.{AreCostEntries, AreInRuns, block_steps, settings_of};

use crate::alike::are_alike;
use crate::cost_entries::{cost_table, write_cost_entries};
use crate::runs::steps_of_word;
use mode_set::{Entry, Settings, Stream};
use soft_metric::AxisMetric;
use std::alloc::{AllocError, Global};
use std::marker::Model;

/// The metric of the cells and the cost entries of both streams, for the parameters of a symbol. They are seen
/// as the settings of the transmission and these parameters.
#[derive(Drop)]
pub(crate) struct CostTables {
    settings: Settings,
    // The parameters of the last symbol, and the tables for them.
    latest: Entry,
    metric: AxisMetric,
    hp: Vec<u16>,
    lp: Vec<u16>,
    // The steps of a word, if the entries are in runs.
    hp_steps: Option<usize>,
    lp_steps: Option<usize>,
}

impl Model for CostTables {
    ghost use Rattle.std.specs.Prelude.{vec_capacity};
    ghost use Rattle.mode_set.specs.Entries.{with_entry};
    ghost use Rattle.inner_chain.specs.CostTables.{AreCostTables, TablesState};

    ghost Value = { TablesState };

    ghost view = { λ t. record { settings = t.settings; latest = t.latest } };

    ghost invariant = { λ t. AreCostTables (with_entry t.settings t.latest) t.metric t.hp.items t.lp.items
        (vec_capacity t.hp) (vec_capacity t.lp) t.hp_steps t.lp_steps };
}

impl CostTables {
    /// The tables for the settings' first parameters, in room for those of any.
    pub(crate) fn new(alloc: Global, settings: &Settings) -> Result<Self, AllocError>
        ensures { IfOk result (λ tables. tables.settings ≡ settings.now) }
    {
        let latest = settings.entry(0);
        let first = settings.with_entry(&latest);
        let hp = cost_table(alloc, &first, Stream::Hp)?;
        let lp = cost_table(alloc, &first, Stream::Lp)?;
        let hp_steps = steps_of_word(&hp);
        let lp_steps = steps_of_word(&lp);
        Ok(CostTables {
            settings: *settings,
            latest,
            metric: AxisMetric::new(first.shape, first.hierarchy),
            hp,
            lp,
            hp_steps,
            lp_steps,
        })
    }

    /// Turns the tables to the parameters of an entry. They are written anew only where these are others.
    pub(crate) fn turn_to(&mut self, entry: &Entry)
        ensures settings { self.new.settings ≡ self.old.settings }
        ensures latest { self.new.latest ≡ entry.now }
    {
        let alike = are_alike(&self.latest, entry);
        self.latest = *entry;
        if alike {
            return;
        }
        let settings = self.settings.with_entry(entry);
        self.metric = AxisMetric::new(settings.shape, settings.hierarchy);
        write_cost_entries(&settings, Stream::Hp, &mut self.hp);
        write_cost_entries(&settings, Stream::Lp, &mut self.lp);
        self.hp_steps = steps_of_word(&self.hp);
        self.lp_steps = steps_of_word(&self.lp);
    }

    /// The steps of a stream in a symbol of these parameters.
    pub(crate) fn steps(&self, entry: &Entry, stream: Stream) -> u32
        ensures { result ≡ need (with_entry self.now.settings entry.now) stream }
    {
        self.settings.with_entry(entry).need(stream)
    }

    /// The settings with the latest parameters.
    pub(crate) fn settings(&self) -> Settings
        ensures { result ≡ settings_of self.now }
    {
        self.settings.with_entry(&self.latest)
    }

    /// The metric of the cells.
    pub(crate) fn metric(&self) -> &AxisMetric
        ensures { result.now ≡ ((settings_of self.now).shape, (settings_of self.now).hierarchy) }
    {
        &self.metric
    }

    /// The entries of the steps of a stream in a block, and the steps of a word, if the entries are in runs.
    pub(crate) fn entries(&self, stream: Stream) -> (&[u16], Option<usize>)
        ensures entries { AreCostEntries (settings_of self.now) stream (block_steps (settings_of self.now) stream)
            result.0.now }
        ensures runs { IfSome result.1 (λ n. AreInRuns n result.0.now) }
    {
        match stream {
            Stream::Hp => (&self.hp, self.hp_steps),
            Stream::Lp => (&self.lp, self.lp_steps),
        }
    }
}
