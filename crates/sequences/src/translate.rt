// The sequential program of a table.
ghost use Rattle.std.specs.Prelude.{◌≡◌, ℕ, ◌<◌, ◌≤◌, [], length, IfOk};
ghost use Rattle.tables.specs.Tables.{view};
ghost use Rattle.tables.specs.WellFormed.{WellFormed};
ghost use Rattle.sequences.specs.Code.{section as section_code};
ghost use Rattle.sequences.specs.Sequences.{Holds, codes_of, guide_of, sections_of, parts_in, part_between};
ghost use Rattle.sequences.specs.Writes.{Translatable};

use crate::sequence::{Part, Sections, Sequence};
use crate::writes::{write_driver, write_section};
use kinds::Kind;
use records::reserved::Reserved;
use records::statement::Thread;
use std::alloc::{AllocError, Global};
use std::marker::PhantomData;
use tables::table::Table;

// The instructions between two places.
fn between(first: usize, end: usize) -> Part
    ensures { result ≡ part_between first end }
{
    Part {
        first,
        size: end.saturating_sub(first).min(255) as u8,
    }
}

// The sections of all threads one behind the other in the place of the old ones, and which part each is.
fn write_sections(sections: &mut Sections, parts: &mut Reserved<Part, 8>, table: &Table)
    ensures { Translatable (view table.now) → (i : ℕ) → i < length (view table.now).texts → parts_in sections.new parts.new i ≡ section_code (view table.now) i }
{
    sections.clear();
    parts.clear();
    for i in 0..table.threads() {
        let first = sections.len();
        write_section(sections, table, Thread(i));
        parts.push(between(first, sections.len()));
    }
}

impl<V: Kind> Sequence<V> {
    // A sequential program with no instructions. Only here can memory be short.
    pub fn new(heap: Global) -> Result<Sequence<V>, AllocError>
        ensures { IfOk result (λ s. (codes_of s ≡ []) × (guide_of s ≡ []) × ((i : ℕ) → sections_of s i ≡ [])) }
    {
        Ok(Sequence {
            cells: Reserved::new(heap)?,
            driver: Reserved::new(heap)?,
            sections: Reserved::new(heap)?,
            parts: Reserved::new(heap)?,
            kind: PhantomData,
        })
    }

    // The sequential program of a table over so many rounds, in the place of the old one.
    pub fn translate(&mut self, table: &Table, rounds: u8)
        ensures holds { Translatable (view table.now) → rounds ≤ 8 → Holds self.new (view table.now) rounds }
        ensures well { WellFormed V.meaning (view table.now) → Translatable (view table.now) }
    {
        self.cells.clear();
        self.cells.extend_from_slice(table.cells());
        self.driver.clear();
        write_driver(&mut self.driver, table, rounds);
        write_sections(&mut self.sections, &mut self.parts, table);
    }
}
