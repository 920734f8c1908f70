// Plays a script on a card in memory: calls, and power cuts in the midst of them.
#![tactic(auto)]

mod desk;
mod digest;
mod listing;
mod script;
mod watched;

use anyhow::anyhow;
use cache::cached::Cached;
use calls_on_store::FileSystem;
use desk::{Desk, Files};
use device::memory::{Askings, Memory};
use lines::{ParseError, Request};
use pages::store::Store;
use script::{Cut, Line, Question};
use std::alloc::AllocError;
use std::io::Read;
use std::process::ExitCode;
use std::rc::Rc;
use watched::{Watch, Watched, since};

// The sectors that a card in memory has at most: 64 GiB.
const MOST_SECTORS: u64 = 1 << 27;

// The lines that only a rehearsal has.
const MORE_HELP: &str = "cut ASKINGS SEED\ntree\ncount\nSECTORS";

// The memory that is lent, besides the words: pages to work in, and the frames of the cache.
#[derive(Drop)]
struct Lent {
    work: Vec<[u8; 4096]>,
    frames: Vec<[u8; 4096]>,
}

// What ends a life of the desk, from its coming up on.
#[derive(Clone, Copy)]
enum End {
    Script,
    // Another card is taken.
    Card(u64),
    // The power failed.
    Power,
}

impl<'d, F: Files> Desk<'d, F> {
    fn count_text(&self, last: Askings) -> Result<String, AllocError> {
        let up = self.files.reads();
        let Askings {
            reads,
            writes,
            syncs,
        } = self.watch.askings();
        let Askings {
            reads: r,
            writes: w,
            syncs: s,
        } = last;
        format!(in self.heap;
            "reads {reads} writes {writes} syncs {syncs} last {r} {w} {s} up {up}"
        )
    }

    fn request_text(&mut self, request: &Request) -> Result<String, AllocError> {
        if let Request::List { handle } = request {
            return self.list_text(*handle);
        }
        let heap = self.heap;
        match request.as_call() {
            Some(call) => lines::print_reply(heap, self.call(call), request.bytes_as()),
            None => {
                let mut text = String::from_str(heap, lines::help_text())?;
                text.push_str(MORE_HELP)?;
                Ok(text)
            }
        }
    }
}

// Where the script is, and what is kept from line to line.
#[derive(Drop)]
struct Stage<'a> {
    rest: &'a [u8],
    // The cut that is to come.
    cut: Option<Cut>,
    // The askings of the last call.
    last: Askings,
}

impl<'a> Stage<'a> {
    // The next line that is about something; none at the end of the script.
    fn next_line(&mut self, rt: &HostRuntime) -> anyhow::Result<Option<Line>> {
        for _ in 0..u64::MAX {
            if self.rest.is_empty() {
                break;
            }
            let (line, rest) = script::first_line(self.rest);
            self.rest = rest;
            match script::read_line(rt.alloc(), line) {
                Ok(None) => {}
                Ok(Some(line)) => return Ok(Some(line)),
                Err(ParseError::Wrong(fault)) => println!(rt; "what? {fault}")?,
                Err(e) => return Err(e.into()),
            }
        }
        Ok(None)
    }

    // The first line that needs the desk; or why there is none. Two results in one, since what ends a life is no error of the program.
    fn first_call(&mut self, rt: &HostRuntime) -> anyhow::Result<Result<Question, End>> {
        for _ in 0..u64::MAX {
            match self.next_line(rt)? {
                None => return Ok(Err(End::Script)),
                Some(Line::Card(sectors)) => return Ok(Err(End::Card(sectors))),
                Some(Line::Cut(cut)) => self.cut = Some(cut),
                Some(Line::Ask(question)) => return Ok(Ok(question)),
            }
        }
        Ok(Err(End::Script))
    }

    // Makes the call of a line and prints the answer, or `cut` where the power failed in it. Says whether the power is still on.
    fn answer<F: Files>(
        &mut self,
        rt: &HostRuntime,
        desk: &mut Desk<F>,
        question: &Question,
    ) -> anyhow::Result<bool> {
        let before = desk.watch.askings();
        let text = match question {
            Question::Request(request) => desk.request_text(request)?,
            Question::Tree => desk.tree_text()?,
            Question::Count => desk.count_text(self.last)?,
        };
        if !desk.watch.is_on() {
            rt.println("cut")?;
            return Ok(false);
        }
        if !matches!(question, Question::Count) {
            self.last = since(before, desk.watch.askings());
        }
        rt.println(text.as_str())?;
        Ok(true)
    }

    // The lines that a desk answers which is up.
    fn serve<F: Files>(&mut self, rt: &HostRuntime, desk: &mut Desk<F>) -> anyhow::Result<End> {
        for _ in 0..u64::MAX {
            match self.next_line(rt)? {
                None => return Ok(End::Script),
                Some(Line::Card(sectors)) => return Ok(End::Card(sectors)),
                Some(Line::Cut(cut)) => {
                    self.cut = Some(cut);
                    desk.watch.fail_after(cut.askings);
                }
                Some(Line::Ask(question)) => {
                    if !self.answer(rt, desk, &question)? {
                        return Ok(End::Power);
                    }
                }
            }
        }
        Ok(End::Script)
    }

    // A desk that has just come up, unless power failed before it had: it answers until power fails.
    fn answer_all<F: Files>(
        &mut self,
        rt: &HostRuntime,
        desk: &mut Desk<F>,
        first: &Question,
    ) -> anyhow::Result<End> {
        if !desk.watch.is_on() {
            rt.println("cut coming up")?;
            return Ok(End::Power);
        }
        if !self.answer(rt, desk, first)? {
            return Ok(End::Power);
        }
        self.serve(rt, desk)
    }

    // The desk comes up for the first line that needs it.
    fn live(
        &mut self,
        rt: &HostRuntime,
        store: &mut Store<Watched>,
        watch: &Watch,
        sectors: u64,
        lent: &mut Lent,
    ) -> anyhow::Result<End> {
        let first = match self.first_call(rt)? {
            Ok(question) => question,
            Err(end) => return Ok(end),
        };
        if let Some(cut) = self.cut {
            watch.fail_after(cut.askings);
        }
        let mut cache = Cached::new(store, 0, &mut lent.frames);
        match FileSystem::open(&mut cache, sectors, &mut lent.work) {
            Ok(mut files) => {
                let mut desk = Desk::new(rt.alloc(), &mut files, watch);
                self.answer_all(rt, &mut desk, &first)
            }
            Err(e) => Err(e.into()),
        }
    }

    // Plays the script on a blank card, up to its end or to the next card, of which it gives the size.
    fn play(
        &mut self,
        rt: &HostRuntime,
        sectors: u64,
        lent: &mut Lent,
    ) -> anyhow::Result<Option<u64>> {
        if sectors > MOST_SECTORS {
            return Err(anyhow!("a card in memory has at most 2^27 sectors"));
        }
        let mut words = vec![in rt.alloc(); 0u64; calls_on_store::words_for(sectors) as usize]?;
        let watch = Rc::new(rt.alloc(), Watch::new())?;
        let card = Watched::new(Memory::new(rt.alloc(), sectors)?, watch.clone()?);
        let mut store = Store::new(card, &mut words);
        self.cut = None;
        for _ in 0..u64::MAX {
            match self.live(rt, &mut store, &watch, sectors, lent)? {
                End::Script => return Ok(None),
                End::Card(next) => return Ok(Some(next)),
                End::Power => {
                    let Some(cut) = self.cut.take() else {
                        return Err(anyhow!(
                            "there is no memory for what is written between two syncs"
                        ));
                    };
                    store.with_device(|card| card.cut(cut.seed));
                }
            }
        }
        Ok(None)
    }
}

fn rehearse(rt: &HostRuntime) -> anyhow::Result<()> {
    let mut text: Vec<u8> = Vec::new(rt.alloc());
    let _ = rt.stdin().read_to_end(&mut text)?;
    let mut lent = Lent {
        work: vec![in rt.alloc(); [0u8; 4096]; calls_on_store::WORK_PAGES]?,
        frames: vec![in rt.alloc(); [0u8; 4096]; calls_on_store::CACHE_FRAMES]?,
    };
    let mut stage = Stage {
        rest: &text,
        cut: None,
        last: Askings::default(),
    };
    let Some(Line::Card(sectors)) = stage.next_line(rt)? else {
        return Err(anyhow!("the first line is the size of the card in sectors"));
    };
    let mut card = Some(sectors);
    for _ in 0..u64::MAX {
        let Some(sectors) = card else {
            break;
        };
        card = stage.play(rt, sectors, &mut lent)?;
    }
    Ok(())
}

// What went wrong is said once, in one line. `card` has the same few lines; a crate for them would be no plainer.
fn main(rt: HostRuntime) -> ExitCode {
    let Err(e) = rehearse(&rt) else {
        return ExitCode::SUCCESS;
    };
    let _ = eprintln!(rt; "rehearse: {e}");
    ExitCode::FAILURE
}
