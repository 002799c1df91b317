ghost use Rattle.std.specs.Prelude.{◌≡◌, IsSome};

use crate::pass::Pass;
use block::{BLOCK_SIZE, write_items};
use run::Run;
use station::{Recorded, Refusal, Station};
use std::fmt::Display;
use std::io;
use traces::replay;

// A run, and the items of its entries at each step, kept beside it for the replay.
#[derive(Drop)]
pub struct Rehearsal<'a, K: Station> {
    rt: &'a HostRuntime,
    run: Run<'a, K>,
    pass: Pass<K::Item>,
}

impl<'a, K: Recorded> Rehearsal<'a, K>
where
    K::State: Default + Display + Drop,
{
    pub fn new(rt: &'a HostRuntime, cells: &'a mut [K], pass: Pass<K::Item>) -> Rehearsal<'a, K> {
        let run = Run::open(cells, 1);
        Rehearsal { rt, run, pass }
    }

    pub fn walk(&mut self) -> anyhow::Result<()> {
        self.load()?;
        self.try_and_take_back()?;
        self.try_and_keep()?;
        self.shorten()?;
        self.lengthen()
    }

    // Writes the recorded frames as a block and loads it.
    fn load(&mut self) -> anyhow::Result<()> {
        let mut block = [0u8; BLOCK_SIZE];
        write_items::<K>(&self.pass.recorded, &mut block).map_err(Refusal::from)?;
        self.run.load(&block).map_err(Refusal::from)?;
        self.show("loaded", &self.pass.recorded)
    }

    // Tries the burst and takes it back, whether or not it could be shown.
    fn try_and_take_back(&mut self) -> anyhow::Result<()> {
        let pass = self.pass;
        let ticket = self.run.trial(2, pass.tried[2])?;
        let shown = self.show_open();
        // A ticket settles the trial that gave it.
        self.run.take_back(ticket).unwrap();
        shown?;
        self.show("taken back", &pass.recorded)
    }

    // What can be seen while the trial is open. The run stays as it is.
    fn show_open(&mut self) -> anyhow::Result<()>
        ensures { IsSome self.old.run.trial → self.new.run ≡ self.old.run }
    {
        let pass = self.pass;
        self.show("tried", &pass.tried)?;
        let answer = self.run.append(pass.appended[3]);
        self.show_answer("append while a trial is open", answer)?;
        Ok(())
    }

    // Tries it again, and keeps it.
    fn try_and_keep(&mut self) -> anyhow::Result<()> {
        let pass = self.pass;
        let ticket = self.run.trial(2, pass.tried[2])?;
        self.run.keep(ticket).unwrap();
        self.show("kept", &pass.tried)
    }

    // The withdrawn entry is the last one that the cut leaves.
    fn shorten(&mut self) -> anyhow::Result<()> {
        self.run.withdraw(3)?;
        self.show("withdrawn", &self.pass.withdrawn)?;
        self.run.cut(4)?;
        self.show("cut", &self.pass.withdrawn[..3])
    }

    fn lengthen(&mut self) -> anyhow::Result<()> {
        let pass = self.pass;
        self.run.append(pass.appended[3])?;
        self.show("appended", &pass.appended)?;
        let answer = self.run.withdraw(5);
        self.show_answer("withdraw beyond the length", answer)?;
        Ok(())
    }

    // The figures of the run behind all its entries, beside the replay of the same entries' items.
    fn show(&self, step: &str, items: &[K::Item]) -> anyhow::Result<()> {
        let start = K::State::default();
        let length = self.run.length();
        let figures = self.run.state(length, start)?;
        let replayed = replay::<K>(start, items);
        println!(self.rt; "{step} {length}: run {figures} | replay {replayed}")?;
        Ok(())
    }

    // What a call answered that is to be refused.
    fn show_answer<T: Drop>(&self, call: &str, answer: Result<T, Refusal>) -> io::Result<()> {
        match answer {
            Ok(_) => println!(self.rt; "{call}: granted"),
            Err(refusal) => println!(self.rt; "{call}: {refusal}"),
        }
    }
}
