// The declarations of names.

ghost use Rattle.std.specs.Prelude.{List, ◌≡◌, ◌<◌, ◌-◌, ◌^◌, IfOk, IfSome, Some, None, bytes_eq, if◌then◌else◌, is_some, [], length, map, option_and_then, option_map, replicate, slice_get};
ghost use Rattle.std.specs.List.{IsDistinct};
ghost use Rattle.std.specs.Option.{option_or};
ghost use Rattle.ae_vmodule.specs.View.{net_tree, word_at};
ghost use Rattle.ae_judge.specs.Names.{net_named, is_input_name, is_wire_name, is_register_name, is_memory_name, is_ranged, is_one_bit_input, depth_of, is_input_kind, is_wire_kind, is_register_kind, is_memory_kind, depth_of_kind};
ghost use Rattle.ae_judge.specs.Table.{table_of};
ghost use Rattle.ae_judge.specs.Places.{AreNoted, Entry, place_in, place_named, with_place};
ghost use Rattle.ae_judge.specs.Judging.{first_again};
ghost use Rattle.ae_judge.specs.Widths.{declared_width};

use crate::maybe_place::MaybePlace;
use ae_keyed::Keyed;
use ae_vmodule::{NetKind, PackedNet, WordList};
use std::alloc::{AllocError, Global};
use std::marker::Model;

/// The nets of a module, found by their names: of nets of one name the first.
#[derive(Drop)]
pub struct Names<'m> {
    words: &'m WordList<'m>,
    nets: &'m [PackedNet],
    /// The place of the first declaration of each name, by its number.
    places: Vec<MaybePlace>,
    /// The item of the first net whose name an earlier one has.
    again: Option<u32>,
}

impl<'m> Model for Names<'m> {
    ghost use Rattle.std.specs.Prelude.{◌≡◌, [], map};
    ghost use Rattle.ae_vmodule.specs.View.{net_tree};
    ghost use Rattle.ae_judge.specs.Table.{NameTable, table_of};
    ghost use Rattle.ae_judge.specs.Places.{ArePlaces};
    ghost use Rattle.ae_judge.specs.Judging.{first_again};

    ghost Value = { NameTable };

    ghost view = { λ s. table_of s.words.now s.nets.now };

    ghost invariant = { λ s. ArePlaces s.words.now (map (net_tree s.words.now) s.nets.now) s.places.items × (s.again ≡ first_again [] (map (net_tree s.words.now) s.nets.now)) };
}

/// The item that is noted already, or this one where its name was there.
fn noted(again: Option<u32>, there: bool, item: u32) -> Option<u32>
    ensures { result ≡ option_or again (if there then Some item else None) }
{
    match again {
        Some(first) => Some(first),
        None => { if there { Some(item) } else { None } }
    }
}

/// No places, for so many names.
fn no_places(alloc: Global, count: usize) -> Result<Vec<MaybePlace>, AllocError>
    ensures { IfOk result (λ places. places.items ≡ replicate count None) }
{
    let places = vec![in alloc; MaybePlace::none(); count]?;
    Ok(places)
}

/// Notes a place, unless one was noted, which it answers.
fn put(noted: &mut MaybePlace, place: u32) -> bool
    requires few { place < 2 ^ 32 - 1 }
    ensures there { result ≡ is_some noted.old }
    ensures put { noted.new ≡ option_or noted.old (Some place) }
{
    match noted.place() {
        Some(_) => true,
        None => {
            *noted = MaybePlace::some(place);
            false
        }
    }
}

/// Notes the place of a name by its number, unless one was noted, which it answers; that of a name that is empty, as none of
/// a text is, stands by itself.
fn note(
    words: &WordList<'_>,
    places: &mut Vec<MaybePlace>,
    empty: &mut MaybePlace,
    number: u32,
    place: usize,
) -> bool
    requires few { place < 2 ^ 32 - 1 }
    requires apart { IsDistinct bytes_eq words.now }
    requires long { length places.old.items ≡ length words.now }
    ensures there { (es : List Entry) → AreNoted words.now es places.old.items empty.old → result ≡ is_some (place_in es (word_at words.now number)) }
    ensures notes { (es : List Entry) → AreNoted words.now es places.old.items empty.old → AreNoted words.now (with_place es (word_at words.now number) place) places.new.items empty.new }
{
    if words.name(number).is_empty() {
        return put(empty, place as u32);
    }
    put(&mut places[number as usize], place as u32)
}

impl<'m> Names<'m> {
    /// A table of these nets, in time linear in them.
    pub fn of(
        alloc: Global,
        words: &'m WordList<'m>,
        nets: &'m [PackedNet],
    ) -> Result<Names<'m>, AllocError>
        requires few { length nets.now < 2 ^ 32 }
        ensures { IfOk result (λ t. t ≡ table_of words.now nets.now) }
    {
        words.apart();
        let mut places = no_places(alloc, words.len())?;
        let mut empty = MaybePlace::none();
        let mut again = None;
        'net: for place in 0..nets.len() {
            let net = &nets[place];
            let there = note(words, &mut places, &mut empty, net.name(), place);
            again = noted(again, there, net.item());
        }
        Ok(Names {
            words,
            nets,
            places,
            again,
        })
    }

    /// The allocator that it was made with.
    pub fn alloc(&self) -> Global {
        *self.places.allocator()
    }

    /// How many nets there are.
    pub fn len(&self) -> usize
        ensures { result ≡ length self.now.nets }
    {
        self.nets.len()
    }

    /// How names are hashed.
    pub fn keyed(&self) -> Keyed {
        self.words.keyed()
    }

    /// The item of the first net whose name an earlier one has.
    pub fn again(&self) -> Option<u32>
        ensures { result ≡ first_again [] self.now.nets }
    {
        self.again
    }

    /// The text of a name.
    pub fn word(&self, name: u32) -> &'m str
        ensures { result.now ≡ word_at self.now.words name }
    {
        self.words.name(name)
    }

    /// The place that is noted for a number, if there is one.
    fn noted_at(&self, name: u32) -> Option<u32>
        ensures { IfSome result (λ p. place_named self.now.nets (word_at self.now.words name) ≡ Some p) }
    {
        match self.places.get(name as usize) {
            Some(noted) => noted.place(),
            None => None,
        }
    }

    /// The place that is noted for a number, or found by its text.
    fn noted_place(&self, name: u32) -> Option<usize>
        ensures { result ≡ place_named self.now.nets (word_at self.now.words name) }
    {
        match self.noted_at(name) {
            Some(place) => Some(place as usize),
            None => self.scan(self.words.name(name)),
        }
    }

    /// The place of a name's declaration among the nets.
    pub fn place(&self, name: u32) -> Option<usize>
        ensures place { result ≡ place_named self.now.nets (word_at self.now.words name) }
        ensures within { IfSome result (λ p. p < length self.now.nets) }
        ensures net { option_and_then (slice_get self.now.nets) result ≡ net_named self.now.nets (word_at self.now.words name) }
    {
        self.noted_place(name)
    }

    /// The place of the name with this text, in time linear in the nets.
    fn scan(&self, word: &str) -> Option<usize>
        ensures place { result ≡ place_named self.now.nets word.now }
        ensures within { IfSome result (λ p. p < length self.now.nets) }
        ensures net { option_and_then (slice_get self.now.nets) result ≡ net_named self.now.nets word.now }
    {
        'net: for place in 0..self.nets.len() {
            if self.words.name(self.nets[place].name()) == word {
                return Some(place);
            }
        }
        None
    }

    /// The declaration of a name.
    pub fn net(&self, name: u32) -> Option<&'m PackedNet>
        ensures { option_map (λ x. net_tree self.now.words x.now) result ≡ net_named self.now.nets (word_at self.now.words name) }
    {
        match self.place(name) {
            Some(place) => Some(&self.nets[place]),
            None => None,
        }
    }

    /// The declaration of the name with this text, in time linear in the nets.
    pub fn named(&self, word: &str) -> Option<&'m PackedNet>
        ensures { option_map (λ x. net_tree self.now.words x.now) result ≡ net_named self.now.nets word.now }
    {
        match self.scan(word) {
            Some(place) => Some(&self.nets[place]),
            None => None,
        }
    }

    pub fn is_input(&self, name: u32) -> bool
        ensures { result ≡ is_input_name self.now.nets (word_at self.now.words name) }
    {
        match self.net(name) {
            Some(net) => is_input_kind(net.kind()),
            None => false,
        }
    }

    pub fn is_wire(&self, name: u32) -> bool
        ensures { result ≡ is_wire_name self.now.nets (word_at self.now.words name) }
    {
        match self.net(name) {
            Some(net) => is_wire_kind(net.kind()),
            None => false,
        }
    }

    pub fn is_register(&self, name: u32) -> bool
        ensures { result ≡ is_register_name self.now.nets (word_at self.now.words name) }
    {
        match self.net(name) {
            Some(net) => is_register_kind(net.kind()),
            None => false,
        }
    }

    pub fn is_memory(&self, name: u32) -> bool
        ensures { result ≡ is_memory_name self.now.nets (word_at self.now.words name) }
    {
        match self.net(name) {
            Some(net) => is_memory_kind(net.kind()),
            None => false,
        }
    }

    /// Whether it is declared with a range.
    pub fn is_ranged(&self, name: u32) -> bool
        ensures { result ≡ is_ranged self.now.nets (word_at self.now.words name) }
    {
        match self.net(name) {
            Some(net) => net.ranged(),
            None => false,
        }
    }

    pub fn is_one_bit_input(&self, name: u32) -> bool
        ensures { result ≡ is_one_bit_input self.now.nets (word_at self.now.words name) }
    {
        match self.net(name) {
            Some(net) => is_input_kind(net.kind()) && net.width() == 1,
            None => false,
        }
    }

    /// The width in bits; a memory's is that of its words, and that of no net 0.
    pub fn width(&self, name: u32) -> u32
        ensures { result ≡ declared_width self.now.nets (word_at self.now.words name) }
    {
        match self.net(name) {
            Some(net) => net.width(),
            None => 0,
        }
    }

    /// How many words a memory has; no other net has any.
    pub fn depth(&self, name: u32) -> u32
        ensures { result ≡ depth_of self.now.nets (word_at self.now.words name) }
    {
        match self.net(name) {
            Some(net) => depth_of_kind(net.kind()),
            None => 0,
        }
    }
}

pub fn is_input_kind(kind: NetKind) -> bool
    ensures { result ≡ is_input_kind kind }
{
    match kind {
        NetKind::Input => true,
        NetKind::Wire | NetKind::OutWire | NetKind::Reg | NetKind::OutReg | NetKind::Memory(_) =>
            false,
    }
}

pub fn is_wire_kind(kind: NetKind) -> bool
    ensures { result ≡ is_wire_kind kind }
{
    match kind {
        NetKind::Wire | NetKind::OutWire => true,
        NetKind::Input | NetKind::Reg | NetKind::OutReg | NetKind::Memory(_) => false,
    }
}

pub fn is_register_kind(kind: NetKind) -> bool
    ensures { result ≡ is_register_kind kind }
{
    match kind {
        NetKind::Reg | NetKind::OutReg => true,
        NetKind::Input | NetKind::Wire | NetKind::OutWire | NetKind::Memory(_) => false,
    }
}

pub fn is_memory_kind(kind: NetKind) -> bool
    ensures { result ≡ is_memory_kind kind }
{
    match kind {
        NetKind::Memory(_) => true,
        NetKind::Input | NetKind::Wire | NetKind::OutWire | NetKind::Reg | NetKind::OutReg => false,
    }
}

/// How many words a memory has.
pub fn depth_of_kind(kind: NetKind) -> u32
    ensures { result ≡ depth_of_kind kind }
{
    match kind {
        NetKind::Memory(depth) => depth,
        NetKind::Input | NetKind::Wire | NetKind::OutWire | NetKind::Reg | NetKind::OutReg => 0,
    }
}
