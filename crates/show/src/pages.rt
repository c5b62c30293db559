// Pages that show what scripts leave.
ghost use Rattle.std.specs.Prelude.{◌≡◌, ◌++◌, Ok as Fine, IfOk, OnOk, string_bytes};
ghost use Rattle.std.specs.List.{flat_map};
ghost use Rattle.listing.specs.Listed.{listed};
ghost use Rattle.kernel.specs.View.{state};
ghost use Rattle.history.specs.History.{after};
ghost use Rattle.player.specs.Parsed.{parsed};
ghost use Rattle.player.specs.Played.{opening, Lawfully};
ghost use Rattle.show.specs.Shown.{row_line, line_at, packet_lines, listing_lines, listing_text, page_text};

use kernel::phases::{Kernel, Started};
use listing::Listed;
use packets::rows::{Packet, Place};
use player::kernel_after;
use std::alloc::{AllocError, Global};

// Adds a line for each row of a listing.
fn add_rows(page: &mut String, rows: &[Listed]) -> Result<(), AllocError>
    ensures { OnOk result (string_bytes page.new ≡ string_bytes page.old ++ flat_map row_line rows.now) }
{
    for row in rows {
        writeln!(
            page,
            "task {} {} {} {} {}",
            row.task, row.priority, row.state, row.flags, row.queued
        )?;
    }
    Ok(())
}

// Adds how a listing was answered that was not refused, and its rows.
fn add_listed(page: &mut String, count: u32, rows: &[Listed]) -> Result<(), AllocError>
    ensures { OnOk result (string_bytes page.new ≡ string_bytes page.old ++ listing_lines (Fine count) rows.now) }
{
    writeln!(page, "listing 0 {count}")?;
    add_rows(page, rows)
}

// Adds the line of a packet, if it is not free.
fn add_packet(page: &mut String, n: u32, packet: Packet) -> Result<(), AllocError>
    ensures { OnOk result (string_bytes page.new ≡ string_bytes page.old ++ line_at packet.place n packet) }
{
    let Packet {
        place,
        sender,
        kind,
        first,
        second,
    } = packet;
    match place {
        Place::Free => Ok(()),
        Place::Hands(t) => {
            writeln!(
                page,
                "packet {n} hands {t} {sender} {kind} {first} {second}"
            )
        }
        Place::Queue(t) => {
            writeln!(
                page,
                "packet {n} queue {t} {sender} {kind} {first} {second}"
            )
        }
    }
}

// Adds a line for each packet that is not free.
#[tactic(auto, using(crate::proofs::Counted::none_yet))]
fn add_packets(page: &mut String, kernel: &Kernel<Started>) -> Result<(), AllocError>
    ensures { OnOk result (string_bytes page.new ≡ string_bytes page.old ++ packet_lines (state kernel.now) 64) }
{
    for n in 1..65 {
        add_packet(page, n, kernel.look(n))?;
    }
    Ok(())
}

// Lists the tasks into these rows, and adds what the listing was answered and its rows.
#[tactic(auto, using(crate::proofs::Rows::rows_fit))]
fn add_listing(
    page: &mut String,
    kernel: &Kernel<Started>,
    rows: &mut [Listed],
) -> Result<(), AllocError>
    ensures text { OnOk result (string_bytes page.new ≡ string_bytes page.old ++ listing_text (state kernel.now) rows.old) }
    ensures rows { rows.new ≡ listed (state kernel.now) rows.old }
{
    match kernel.list(rows) {
        Ok(count) => add_listed(page, count, &rows[..count as usize]),
        Err(why) => writeln!(page, "listing {} 0", why.number()),
    }
}

// The page of a kernel, of which the tasks are listed into these rows.
pub fn page_of(
    kernel: &Kernel<Started>,
    rows: &mut [Listed],
    heap: Global,
) -> Result<String, AllocError>
    ensures text { IfOk result (λ s. string_bytes s ≡ page_text (state kernel.now) rows.old) }
    ensures rows { rows.new ≡ listed (state kernel.now) rows.old }
{
    let mut page = String::new(heap);
    add_listing(&mut page, kernel, rows)?;
    add_packets(&mut page, kernel)?;
    Ok(page)
}

// The page of the kernel that a script leaves.
pub fn shown(bytes: &[u8], rows: &mut [Listed], heap: Global) -> Result<String, AllocError>
    ensures text { IfOk result (λ s. string_bytes s ≡ page_text (after opening (parsed bytes.now).0) rows.old) }
    ensures rows { OnOk result (rows.new ≡ listed (after opening (parsed bytes.now).0) rows.old) }
    ensures law { OnOk result (Lawfully (parsed bytes.now).0 (after opening (parsed bytes.now).0)) }
{
    let kernel = kernel_after(bytes, heap)?;
    page_of(&kernel, rows, heap)
}
