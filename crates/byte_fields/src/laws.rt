//! Laws of the fields of texts. Each function does nothing: its clauses are what it shows. Those of what is put together of fields
//! speak of all fields at once, which no clause can: they are lemmas (`FieldLaws`, `TextLaws`, `ItemLaws`, `StayLaws`, `OpenLaws`).

ghost use Rattle.byte_fields.specs.Laws.{NumbersAreRead, LinesAreRead, BytesAreRead, NumbersAreSteady, LinesAreSteady, BytesAreSteady, NumbersAreOpen, LinesAreOpen, BytesAreOpen};

/// What reads the fields of texts.
pub fn texts_are_read()
    ensures numbers { NumbersAreRead }
    ensures lines { LinesAreRead }
    ensures bytes { BytesAreRead }
{}

/// The first fault of a text stays where what stands behind its place changes.
pub fn first_faults_stay()
    ensures numbers { NumbersAreSteady }
    ensures lines { LinesAreSteady }
    ensures bytes { BytesAreSteady }
{}

/// The bytes before the place of a first fault begin a text.
pub fn texts_begin_before_faults()
    ensures numbers { NumbersAreOpen }
    ensures lines { LinesAreOpen }
    ensures bytes { BytesAreOpen }
{}
