ghost use Rattle.std.specs.Prelude.{◌<◌, ◌≤◌, length, IfOk, IfSome};

use crate::blocks::{Blocks, Key};
use crate::fault::CaseFault;
use crate::setting::Setting;
use kts_base::{List, NoMemory};
use std::alloc::Global;

/// What the program is run on, and what is wanted of it.
#[derive(Drop)]
pub struct Case<'a> {
    pub name: &'a str,
    pub setting: Setting,
    pub status: u64,
    pub output: &'a [u8],
}

impl<'a> Case<'a> {
    /// The next case; None where none is left.
    pub fn read(alloc: Global, blocks: &mut Blocks<'a>) -> Result<Option<Case<'a>>, CaseFault>
        ensures nearer { IfOk result (λ next. IfSome next (λ _. length blocks.new.rest.now < length blocks.old.rest.now)) }
    {
        let Some(head) = blocks.next()? else {
            return Ok(None);
        };
        if head.key != Key::Case {
            return Err(head.broken());
        }
        let name = head.text()?;
        let mut setting = Setting::new(alloc);
        while let Some(block) = blocks.next()? {
            match block.key {
                Key::Word => setting.words.push(String::from_str(alloc, block.text()?)?)?,
                Key::Path => {
                    let bytes = read_content(alloc, blocks)?;
                    setting.files.push((block.name()?, bytes))?;
                }
                Key::Load => setting.loads.push(block.number()?)?,
                Key::Fail => {
                    let (put, count) = block.pair()?;
                    setting.failing.push((put, count as usize))?;
                }
                Key::Cut => setting.cut = Some(block.number()? as usize),
                Key::Room => setting.room = Some(block.number()? as usize),
                Key::Before => setting.before = block.number()?,
                Key::Status => {
                    let status = block.number()?;
                    let output = blocks.expect(Key::Output)?.bytes;
                    return Ok(Some(Case {
                        name,
                        setting,
                        status,
                        output,
                    }));
                }
                _ => return Err(block.broken()),
            }
        }
        Err(blocks.broken())
    }
}

// The content of a file: the bytes of the next block, or as many line feeds as it says.
fn read_content(alloc: Global, blocks: &mut Blocks<'_>) -> Result<List<u8>, CaseFault>
    ensures on { IfOk result (λ _. length blocks.new.rest.now ≤ length blocks.old.rest.now) }
{
    let Some(block) = blocks.next()? else {
        return Err(blocks.broken());
    };
    match block.key {
        Key::File => Ok(List::from_slice(alloc, block.bytes)?),
        Key::Feeds => Ok(line_feeds(alloc, block.number()?)?),
        _ => Err(block.broken()),
    }
}

// So many line feeds.
fn line_feeds(alloc: Global, count: u64) -> Result<List<u8>, NoMemory> {
    let mut bytes = List::new(alloc);
    for _ in 0..count {
        bytes.push(b'\n')?;
    }
    Ok(bytes)
}
