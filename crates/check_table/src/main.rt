// Says of the table file `table.dat` what it holds, or why it is refused.
#![tactic(auto)]

ghost use Rattle.std.specs.Prelude.{◌≡◌, ◌≢◌, IfErr, codes};
ghost use Rattle.std.specs.IoError.{error_kind};
ghost use Rattle.check_table.specs.Lines.{is_of_ticks, name_of};

use amounts::Amounts;
use field::Field;
use std::io::ErrorKind;
use std::{fs, io};
use table_file::TableFile;
use ticks::Ticks;

mod listing;
mod refused;

use refused::Refused;

// What a field is called in a report.
fn field_name<F: Field>() -> &'static str
    ensures { result.now ≡ name_of F.model.kind }
{
    if F::kind() == Ticks::kind() {
        "ticks"
    } else {
        "amounts"
    }
}

// One line for a refused file. Field, members and stored values for an accepted one.
fn report<F: Field>(rt: &HostRuntime, bytes: &[u8]) -> io::Result<()> {
    match TableFile::<F>::open(bytes) {
        Ok(table) => {
            println!(rt; "field {}", field_name::<F>())?;
            listing::print(rt, &table)
        }
        Err(refusal) => println!(rt; "{}", Refused(refusal)),
    }
}

// The kind byte chooses the field. Any kind but that of ticks, and none, is taken as amounts.
fn is_of_ticks(bytes: &[u8]) -> bool
    ensures { result ≡ is_of_ticks bytes.now }
{
    bytes.first() == Some(&Ticks::kind())
}

fn check(rt: &HostRuntime, bytes: &[u8]) -> io::Result<()> {
    if is_of_ticks(bytes) {
        report::<Ticks>(rt, bytes)
    } else {
        report::<Amounts>(rt, bytes)
    }
}

// A missing file counts as an empty one.
fn read_table(rt: &HostRuntime) -> io::Result<Vec<u8>>
    ensures { IfErr result (λ e. error_kind e ≢ ErrorKind.NotFound) }
{
    match fs::read(rt, "table.dat") {
        Ok(bytes) => Ok(bytes),
        Err(e) if e.kind() == ErrorKind::NotFound => Ok(Vec::new(rt.alloc())),
        Err(e) => Err(e),
    }
}

fn main(rt: HostRuntime) -> io::Result<()> {
    let bytes = read_table(&rt)?;
    check(&rt, &bytes)
}
