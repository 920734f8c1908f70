// Opens the file `card` as a card, reads lines, makes calls and prints the answers.
#![tactic(auto)]

mod desk;
mod host;

use anyhow::anyhow;
use calls::{FileSystem, NotOpened, OpenError};
use desk::Desk;
use host::HostCard;
use lines::ParseError;
use std::io::{BufRead, BufReader};
use std::process::ExitCode;

// The words that are lent; none for a card that is too large, which is refused anyway.
fn words_for(sectors: u64) -> usize {
    if sectors > calls::MOST_SECTORS {
        return 0;
    }
    calls::words_for(sectors) as usize
}

// Why the file is no card.
fn no_card(refused: NotOpened<HostCard>) -> anyhow::Error {
    let why = refused.why;
    match why {
        OpenError::TooFewSectors => anyhow!("the file `card` is too small: {why}"),
        OpenError::TooManySectors => anyhow!("the file `card` is too large: {why}"),
        OpenError::TooFewPages | OpenError::TooFewWords => why.into(),
    }
}

fn serve(rt: &HostRuntime) -> anyhow::Result<()> {
    let card = HostCard::open(rt, "card").map_err(|e| anyhow!("the file `card`: {e}"))?;
    let sectors = card.sectors();
    let mut pages = vec![in rt.alloc(); [0u8; 4096]; calls::LENT_PAGES]?;
    let mut words = vec![in rt.alloc(); 0u64; words_for(sectors)]?;
    let mut out = [0u8; 65536];
    let files = FileSystem::open(card, sectors, &mut pages, &mut words).map_err(no_card)?;
    let mut desk = Desk::new(rt, files, &mut out)?;
    for line in BufReader::new(rt.alloc(), rt.stdin())?.split(rt.alloc(), b'\n') {
        let line = line?;
        match lines::parse(rt.alloc(), &line) {
            Ok(None) => {}
            Ok(Some(request)) => desk.answer(&request)?,
            Err(ParseError::Wrong(fault)) => println!(rt; "what? {fault}")?,
            Err(e) => return Err(e.into()),
        }
    }
    Ok(())
}

// What went wrong is said once, in one line. `rehearse` has the same few lines; a crate for them would be no plainer.
fn main(rt: HostRuntime) -> ExitCode {
    let Err(e) = serve(&rt) else {
        return ExitCode::SUCCESS;
    };
    let _ = eprintln!(rt; "card: {e}");
    ExitCode::FAILURE
}
