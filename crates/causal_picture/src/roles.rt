//! The processes at the instant: a glyph for the orphan and for each holder, and each name again at the end of its line.
ghost use Rattle.std.specs.Prelude.{◌≡◌, ◌<◌};
ghost use Rattle.causal_picture.specs.Writes.{Extends};
ghost use Rattle.causal_picture.specs.Roles as roles;

use crate::entry_range::Grid;
use crate::focus::Orphan;
use crate::glyphs::{Glyph, push_glyph};
use crate::layout::{right_of, y_of};
use std::alloc::AllocError;

/// The role of a process at the instant, if a delivery has an orphan.
#[derive(Clone, Copy)]
pub enum Role {
    /// It depends on the delivery, and its log lacks the determinant.
    Orphan,
    /// Its volatile log contains the determinant.
    Holder,
    Other,
}

/// The words after the name of a process in that role.
fn role_words(role: Role) -> &'static str {
    match role {
        Role::Orphan => ": orphan",
        Role::Holder => ": holder",
        Role::Other => "",
    }
}

/// The role of a process.
fn role_of(orphan: &Option<Orphan>, process: u8) -> Role
    ensures { result ≡ roles.role_of orphan.now process }
{
    match orphan {
        Some(orphan) if orphan.process == process => Role::Orphan,
        Some(orphan) if orphan.holders.contains(process) => Role::Holder,
        _ => Role::Other,
    }
}

/// Appends the glyph of a role.
fn push_sign(out: &mut String, x: u64, y: u32, role: Role) -> Result<(), AllocError>
    ensures { Extends result out.old out.new }
{
    match role {
        Role::Orphan => push_glyph(out, x, y, Glyph::OpenDiamond),
        Role::Holder => push_glyph(out, x, y, Glyph::Diamond),
        Role::Other => Ok(()),
    }
}

/// Appends a process at the instant: its glyph there, and at the right end of its line its name with its role, where no
/// event and no other name is.
fn push_process(
    out: &mut String,
    grid: &Grid,
    x: u64,
    orphan: &Option<Orphan>,
    process: u8,
) -> Result<(), AllocError>
    ensures { Extends result out.old out.new }
{
    let (right, y) = (right_of(grid), y_of(grid, process));
    let role = role_of(orphan, process);
    let words = role_words(role);
    push_sign(out, x, y, role)?;
    write!(
        out,
        "<text x='{right}' y='{y}' dx='9' dy='4' font-size='10' fill='#0072b2'>process {process}{words}</text>\n"
    )
}

/// Appends the shown processes at the instant.
pub fn push_processes(
    out: &mut String,
    grid: &Grid,
    x: u64,
    orphan: &Option<Orphan>,
) -> Result<(), AllocError>
    ensures { Extends result out.old out.new }
{
    for process in grid.shown.iter() {
        push_process(out, grid, x, orphan, process)?;
    }
    Ok(())
}
