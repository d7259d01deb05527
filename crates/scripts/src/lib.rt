// Scripts of calls and questions on one sheet, answered line by line.
#![tactic(auto)]

mod answers;
mod memory;
mod script;
mod session;

use kinds::{Mobile, Paper, Total};
use memory::{print_bytes, print_rows};
use script::{Kind, Opening, Script, Storage};
use session::{Ending, play};
use shelves::{ByteShelf, Row, RowShelf};

// A script on a sheet over rows, of any kind.
fn over_rows<K: Total>(rt: &HostRuntime, script: Script<'_>, size: usize) -> anyhow::Result<()> {
    let blank: Row<K> = Row {
        first: 0,
        width: 0,
        mark: 0,
        amount: K::zero(),
    };
    let mut rows = vec![in rt.alloc(); blank; size]?;
    let shelf: RowShelf<K> = RowShelf::over(&mut rows);
    if play(rt, script, shelf)? == Ending::MemoryAsked {
        print_rows(rt, &rows)?;
    }
    Ok(())
}

// The same over bytes. Stays beside the other: list, shelf and print are of other types.
fn over_bytes<K: Total>(rt: &HostRuntime, script: Script<'_>, size: usize) -> anyhow::Result<()> {
    let mut bytes = vec![in rt.alloc(); 0u8; size]?;
    let shelf: ByteShelf<K> = ByteShelf::over(&mut bytes);
    if play(rt, script, shelf)? == Ending::MemoryAsked {
        print_bytes::<K>(rt, &bytes)?;
    }
    Ok(())
}

// Runs a script: its first line makes the sheet, and each further line is answered.
pub fn run_script(rt: &HostRuntime, input: &[u8]) -> anyhow::Result<()> {
    let mut script = Script::new(input);
    let Some(
        Opening {
            kind,
            storage,
            size,
        },
    ) = script.opening()
    else {
        rt.println("not a sheet")?;
        return Ok(());
    };
    match (kind, storage) {
        (Kind::Paper, Storage::Rows) => over_rows::<Paper>(rt, script, size),
        (Kind::Paper, Storage::Bytes) => over_bytes::<Paper>(rt, script, size),
        (Kind::Mobile, Storage::Rows) => over_rows::<Mobile>(rt, script, size),
        (Kind::Mobile, Storage::Bytes) => over_bytes::<Mobile>(rt, script, size),
    }
}
