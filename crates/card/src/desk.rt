// Answers requests, one after the other.
use crate::host::HostCard;
use anyhow::bail;
use calls::FileSystem;
use lines::{Notation, Request};
use model::{Call, Refusal, Reply};

// What closes a list: it is no name.
const END: &str = ".";

#[derive(Drop)]
pub struct Desk<'a> {
    rt: &'a HostRuntime,
    files: FileSystem<'a, HostCard>,
    // The bytes of a reply.
    out: &'a mut [u8; 65536],
}

impl<'a> Desk<'a> {
    pub fn new(
        rt: &'a HostRuntime,
        files: FileSystem<'a, HostCard>,
        out: &'a mut [u8; 65536],
    ) -> anyhow::Result<Desk<'a>> {
        let desk = Desk { rt, files, out };
        desk.sound()?;
        Ok(desk)
    }

    // A card's file in trouble ends the program, and is never an answer.
    fn sound(&self) -> anyhow::Result<()> {
        match self.files.device().trouble() {
            None => Ok(()),
            Some(e) => bail!("the file `card` is in trouble: {e}"),
        }
    }

    // The names of an open folder, one call for each.
    fn list(&mut self, handle: u64) -> anyhow::Result<()> {
        let mut after: Vec<u8> = Vec::new(self.rt.alloc());
        for _ in 0..u64::MAX {
            let call = Call::NextName {
                handle,
                after: after.as_slice(),
            };
            let last = match self.files.call(call, self.out) {
                Reply::Named(name) => {
                    after.clear();
                    after.extend_from_slice(name)?;
                    None
                }
                Reply::No(Refusal::NotFound) => Some(String::from_str(self.rt.alloc(), END)?),
                other => Some(lines::print_reply(self.rt.alloc(), other, Notation::Hex)?),
            };
            self.sound()?;
            if let Some(last) = last {
                self.rt.println(last.as_str())?;
                return Ok(());
            }
            let text = lines::print_reply(self.rt.alloc(), Reply::Named(&after), Notation::Path)?;
            self.rt.println(text.as_str())?;
        }
        Ok(())
    }

    pub fn answer(&mut self, request: &Request) -> anyhow::Result<()> {
        if let Request::List { handle } = request {
            return self.list(*handle);
        }
        let Some(call) = request.as_call() else {
            self.rt.print(lines::help_text())?;
            return Ok(());
        };
        let reply = self.files.call(call, self.out);
        let text = lines::print_reply(self.rt.alloc(), reply, request.bytes_as())?;
        self.sound()?;
        self.rt.println(text.as_str())?;
        Ok(())
    }
}
