//! Laws of the format, and worked messages and faults. Each function does nothing: its clauses are what it shows.

ghost use Rattle.wire_reader.specs.Laws.{BytesHaveOne, SpellsOne, HasOneFault, NotBoth, NoProperPrefix, BeginsWithKind, NoKindOfBoth, TwoSpellsAll, FormatIsWhatFits};
ghost use Rattle.wire_reader.specs.Rows.{RegisterIsSpelled, IntegerIsSpelled, NegativeIsSpelled, WideIsSpelled, AtomIsSpelled, RecordIsSpelled, SpawnIsSpelled, ProcedureIsSpelled, CellsAreSpelled, PlacesAreSpelled, RequestsAreSpelled, NothingIsShort, OtherKindIsNone, OtherPlaceIsNone, CutIsShort, OtherSiteIsOut, MoreIsRest, OtherTextIsNone, ExchangedIsOutOfOrder, OtherWidthIsNone};

/// Every list of bytes is the spelling of one message in one form, or has one first fault.
pub fn bytes_spell_or_fail()
    ensures one { BytesHaveOne }
    ensures message { SpellsOne }
    ensures fault { HasOneFault }
    ensures apart { NotBoth }
{}

/// No spelling in either form is a proper prefix of another.
pub fn no_proper_prefix()
    ensures { NoProperPrefix }
{}

/// The first byte of a spelling tells its form.
pub fn first_byte_tells_form()
    ensures begins { BeginsWithKind }
    ensures apart { NoKindOfBoth }
{}

/// What can be spelled in form 1 can be spelled in form 2.
pub fn form_2_spells_all()
    ensures { TwoSpellsAll }
{}

/// What `wire_fits` tells, and for form 1 `fits_words`, is the condition of the format, as far as the types of the numbers do
/// not hold it themselves.
pub fn format_is_what_fits()
    ensures { FormatIsWhatFits }
{}

/// Messages of each kind, with terms of each kind, and their bytes in both forms.
pub fn worked_messages()
    ensures register { RegisterIsSpelled }
    ensures integer { IntegerIsSpelled }
    ensures negative { NegativeIsSpelled }
    ensures wide { WideIsSpelled }
    ensures atom { AtomIsSpelled }
    ensures tree { RecordIsSpelled }
    ensures spawn { SpawnIsSpelled }
    ensures procedure { ProcedureIsSpelled }
    ensures cells { CellsAreSpelled }
    ensures places { PlacesAreSpelled }
    ensures requests { RequestsAreSpelled }
{}

/// Bytes that spell no message, and their first faults, one of each kind, in both forms.
pub fn worked_faults()
    ensures nothing { NothingIsShort }
    ensures kind { OtherKindIsNone }
    ensures place { OtherPlaceIsNone }
    ensures cut { CutIsShort }
    ensures site { OtherSiteIsOut }
    ensures more { MoreIsRest }
    ensures text { OtherTextIsNone }
    ensures order { ExchangedIsOutOfOrder }
    ensures width { OtherWidthIsNone }
{}
