//! An ENUMERATED of 256 items, and a SEQUENCE with one of them.

ghost use Rattle.std.specs.Prelude.{refl, true, [], ◌∷◌, Some};
ghost use Rattle.rasn_below.specs.Page.{item, root, truth, fields_of, all_items};
ghost use Rattle.per_core.specs.Rows.{aligned, unaligned, IsWrittenAs};
ghost use Rattle.per_samples_c.specs.Items.{with_item};

use rasn_below::page::*;

/// ENUMERATED { i0, i1, .., i255 }
#[derive(Clone, Copy, Debug, PartialEq, Eq)]
pub struct ItemOf256 {
    /// The place of the item, from 0.
    pub index: u8,
}

const IDENTIFIERS: &[&str] = &[
    "i0", "i1", "i2", "i3", "i4", "i5", "i6", "i7", "i8", "i9", "i10", "i11", "i12", "i13", "i14",
    "i15", "i16", "i17", "i18", "i19", "i20", "i21", "i22", "i23", "i24", "i25", "i26", "i27",
    "i28", "i29", "i30", "i31", "i32", "i33", "i34", "i35", "i36", "i37", "i38", "i39", "i40",
    "i41", "i42", "i43", "i44", "i45", "i46", "i47", "i48", "i49", "i50", "i51", "i52", "i53",
    "i54", "i55", "i56", "i57", "i58", "i59", "i60", "i61", "i62", "i63", "i64", "i65", "i66",
    "i67", "i68", "i69", "i70", "i71", "i72", "i73", "i74", "i75", "i76", "i77", "i78", "i79",
    "i80", "i81", "i82", "i83", "i84", "i85", "i86", "i87", "i88", "i89", "i90", "i91", "i92",
    "i93", "i94", "i95", "i96", "i97", "i98", "i99", "i100", "i101", "i102", "i103", "i104",
    "i105", "i106", "i107", "i108", "i109", "i110", "i111", "i112", "i113", "i114", "i115", "i116",
    "i117", "i118", "i119", "i120", "i121", "i122", "i123", "i124", "i125", "i126", "i127", "i128",
    "i129", "i130", "i131", "i132", "i133", "i134", "i135", "i136", "i137", "i138", "i139", "i140",
    "i141", "i142", "i143", "i144", "i145", "i146", "i147", "i148", "i149", "i150", "i151", "i152",
    "i153", "i154", "i155", "i156", "i157", "i158", "i159", "i160", "i161", "i162", "i163", "i164",
    "i165", "i166", "i167", "i168", "i169", "i170", "i171", "i172", "i173", "i174", "i175", "i176",
    "i177", "i178", "i179", "i180", "i181", "i182", "i183", "i184", "i185", "i186", "i187", "i188",
    "i189", "i190", "i191", "i192", "i193", "i194", "i195", "i196", "i197", "i198", "i199", "i200",
    "i201", "i202", "i203", "i204", "i205", "i206", "i207", "i208", "i209", "i210", "i211", "i212",
    "i213", "i214", "i215", "i216", "i217", "i218", "i219", "i220", "i221", "i222", "i223", "i224",
    "i225", "i226", "i227", "i228", "i229", "i230", "i231", "i232", "i233", "i234", "i235", "i236",
    "i237", "i238", "i239", "i240", "i241", "i242", "i243", "i244", "i245", "i246", "i247", "i248",
    "i249", "i250", "i251", "i252", "i253", "i254", "i255",
];

impl OfKind for ItemOf256 {
    type Kind = EnumeratedKind;
}

impl Items for ItemOf256 {
    const ITEMS: ItemLists = ItemLists {
        counts: ItemCounts {
            roots: 256,
            addeds: None,
        },
        identifiers: IDENTIFIERS,
    };

    ghost ITEMS = { all_items 256 };

    ghost item = { λ x. item root x.index };

    fn place(&self) -> Place {
        Place::Root(usize::from(self.index))
    }

    fn at(place: Place) -> Option<ItemOf256> {
        let Place::Root(index) = place else {
            return None;
        };
        let index = u8::try_from(index).ok()?;
        Some(ItemOf256 { index })
    }
}

impl ByKind for ItemOf256 {}

/// SEQUENCE { a BOOLEAN, e ENUMERATED { i0, i1, .., i255 } }
#[derive(Clone, Copy, Debug, PartialEq, Eq)]
pub struct WithItem {
    pub a: bool,
    pub e: ItemOf256,
}

macro_rules! components { ($to:ident $($with:ident)*) => { $to! { [$($with)*]
    required 0 "a" a: bool [];
    required 1 "e" e: ItemOf256 [];
} }; }

const FIELDS: FieldLists = components!(fields);

const BOUNDS: Bounds = components!(bounds);

impl Components for WithItem {
    const COMPONENTS: FieldLists = FIELDS;

    ghost COMPONENTS = { fields_of with_item };

    ghost components = { (with_item, refl) };

    ghost contents = { λ x. Some (truth x.a) ∷ Some (item root x.e.index) ∷ [] };
}

impl Record for WithItem {
    fn encode_components<E: Encoder>(&self, encoder: &mut E) -> Result<(), E::Error> {
        components!(encode_components self encoder)
    }

    fn decode_components<D: Decoder>(decoder: &mut D) -> Result<Self, D::Error> {
        components!(decode_components decoder)
    }
}

/// The place of the item in eight bits, in APER on an octet boundary (X.691 11.5.7.2, 14.2).
#[tactic(auto, unfolding(per_core::specs::Rows::bytes, rasn_below::specs::Types::normal))]
pub fn item_of_256_takes_an_octet()
    ensures uper { let own = ⟦<WithItem as AsnType>⟧ in
        IsWrittenAs unaligned (own.schema own.CONSTRAINTS) own.levels own.value
        (record { a = true; e = record { index = 255 } }) (0xff ∷ 0x80 ∷ []) }
    ensures aper { let own = ⟦<WithItem as AsnType>⟧ in
        IsWrittenAs aligned (own.schema own.CONSTRAINTS) own.levels own.value
        (record { a = true; e = record { index = 255 } }) (0x80 ∷ 0xff ∷ []) }
    ensures first { let own = ⟦<WithItem as AsnType>⟧ in
        IsWrittenAs aligned (own.schema own.CONSTRAINTS) own.levels own.value
        (record { a = true; e = record { index = 0 } }) (0x80 ∷ 0x00 ∷ []) }
{}
