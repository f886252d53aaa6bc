//! Numbered lists of positions, one after the other in one vector.
ghost use Rattle.std.specs.Prelude.{◌≡◌, ◌<◌, ◌^◌, [], IfOk, length, sum};
ghost use Rattle.std.specs.List.{All};
ghost use Rattle.causal_audit.specs.Inside.Index.Lists.{list_at, with_added};
ghost use Rattle.causal_audit.specs.Inside.Index.Packed.{HasSpareCapacity};

use causal_name::NoMemory;
use std::alloc::Global;
use std::marker::Model;

/// Where a list begins and ends. Its capacity ends where the next list begins.
#[derive(Clone, Copy)]
pub struct ListSpan {
    pub begin: u32,
    pub end: u32,
}

/// Numbered lists of positions. The model is these lists. A list takes 8 bytes, and 4 for each position of its
/// capacity.
#[derive(Drop)]
pub struct PackedLists {
    positions: Vec<u32>,
    spans: Vec<ListSpan>,
}

impl Model for PackedLists {
    ghost use Rattle.std.specs.Prelude.{ℕ, List, length, map};
    ghost use Rattle.causal_audit.specs.Inside.Index.Packed.{ArePacked, list_in};

    ghost Value = { List (List ℕ) };

    ghost view = { λ a. map (list_in a.positions.items) a.spans.items };

    ghost invariant = { λ a. ArePacked (length a.positions.items) a.spans.items };
}

impl PackedLists {
    /// Returns the number of lists.
    pub fn len(&self) -> usize
        ensures { result ≡ length self.now }
    {
        self.spans.len()
    }

    /// Returns the list of a number; the empty list if there is none.
    pub fn get(&self, number: usize) -> &[u32]
        ensures { result.now ≡ list_at self.now number }
    {
        match self.spans.get(number) {
            Some(span) => &self.positions[span.begin as usize..span.end as usize],
            None => &[],
        }
    }

    /// Returns how many positions the lists before this number have room for: those of all lists, if there is no such list.
    pub fn room_before(&self, number: usize) -> usize {
        match self.spans.get(number) {
            Some(span) => span.begin as usize,
            None => self.positions.len(),
        }
    }
}

/// Numbered lists under construction, each with a fixed capacity. The model is these lists and their capacities.
#[derive(Drop)]
pub struct PackedListsBuilder {
    positions: Vec<u32>,
    spans: Vec<ListSpan>,
}

impl Model for PackedListsBuilder {
    ghost use Rattle.std.specs.Prelude.{◌<◌, ◌^◌, length, map};
    ghost use Rattle.causal_audit.specs.Inside.Index.Packed.{ListsWithCapacities, ArePacked, list_capacities, list_in};

    ghost Value = { ListsWithCapacities };

    ghost view = { λ a. record { lists = map (list_in a.positions.items) a.spans.items; capacities = list_capacities (length a.positions.items) a.spans.items } };

    ghost invariant = { λ a. ArePacked (length a.positions.items) a.spans.items × (length a.positions.items < 2 ^ 32) };
}

impl PackedListsBuilder {
    /// Returns empty lists with these capacities.
    ///
    /// # Errors
    /// `NoMemory` if allocation fails.
    pub fn with_capacities(
        alloc: Global,
        capacities: &[u32],
    ) -> Result<PackedListsBuilder, NoMemory>
        requires { sum capacities.now < 2 ^ 32 }
        ensures empty { IfOk result (λ builder. All (λ list. list ≡ []) builder.lists) }
        ensures capacities { IfOk result (λ builder. builder.capacities ≡ capacities.now) }
        ensures count { IfOk result (λ builder. length builder.lists ≡ length capacities.now) }
    {
        let mut spans = Vec::with_capacity(alloc, capacities.len())?;
        let mut begin: u32 = 0;
        for capacity in capacities {
            spans.push(ListSpan { begin, end: begin })?;
            begin += *capacity;
        }
        let positions = vec![in alloc; 0; begin as usize]?;
        Ok(PackedListsBuilder { positions, spans })
    }

    /// Appends a position to one of the lists, which has spare capacity.
    pub fn add(&mut self, number: usize, position: u32)
        requires { HasSpareCapacity self.old number }
        ensures added { self.new.lists ≡ with_added self.old.lists number position }
        ensures capacities { self.new.capacities ≡ self.old.capacities }
    {
        let ListSpan { begin, end } = self.spans[number];
        self.positions[end as usize] = position;
        self.spans[number] = ListSpan {
            begin,
            end: end + 1,
        };
    }

    /// Returns the lists.
    pub fn finish(self) -> PackedLists
        ensures { result ≡ self.lists }
    {
        PackedLists {
            positions: self.positions,
            spans: self.spans,
        }
    }
}
