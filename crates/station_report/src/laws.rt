//! Laws of the definitions that contracts cite. The functions do nothing.
ghost use Rattle.std.specs.Prelude.{◌≡◌, ◌≢◌, ◌≤◌, ℕ, ℤ, pos, ◌+ℤ◌, List, Option, codes, length};
ghost use Rattle.adjust_kernel.specs.Matching.{Key};
ghost use Rattle.adjust_kernel.specs.Stations.{StationValue};
ghost use Rattle.station_book.specs.Faults.{angles_at};
ghost use Rattle.station_book.specs.Limits.{AreLimits, FaceLimits};
ghost use Rattle.station_book.specs.Places.{History};
ghost use Rattle.station_book.specs.Recorded.{IsRecordedWith};
ghost use Rattle.station_book.specs.declared.faces.Faces.{Faces};
ghost use Rattle.station_check.specs.declared.version.TheConstants.{VERSION};
ghost use Rattle.report_notes.specs.Stated.{IsFree, IsOwnLabel};
ghost use Rattle.report_phrases.specs.declared.language.Language.{Language};
ghost use Rattle.station_report.specs.NoteTexts.{note_text};
ghost use Rattle.station_report.specs.ReportTexts.{entry_text};
ghost use Rattle.station_report.specs.Readings.{reading_one, reading_two, zenith_mean};
ghost use Rattle.station_report.specs.Readings.{zenith_one, zenith_two};
ghost use Rattle.station_report.specs.Stating.{IsComputed};
ghost use Rattle.station_report.specs.Zeniths.{IsZenithDeviation, zenith_deviation};
ghost use Rattle.station_report.specs.declared.accuracy.Accuracy.{Accuracy};
ghost use Rattle.station_results.specs.declared.adjusted.AdjustedObs.{AdjustedObs};

/// What is printed as read in face I and in face II is what was read there: of whichever readings a
/// two-face direction and its face differences are.
pub fn readings()
    ensures { (limits : FaceLimits) (h : History) (name : List ℕ) (k : Key) (f : Faces)
        → AreLimits limits → (r : IsRecordedWith limits h name k f)
        → (reading_one k.value f.two_c ≡ (angles_at r.recorded.first).hz)
        × (reading_two k.value f.two_c ≡ (angles_at r.recorded.second).hz) }
{}

/// What is printed as the zenith angles of face I and of face II is what was read there, and their
/// mean is that of face I less half of 2i: twice it, and 2i, are twice what was read in face I.
pub fn zenith_angles()
    ensures read { (limits : FaceLimits) (h : History) (name : List ℕ) (k : Key) (f : Faces)
        → (r : IsRecordedWith limits h name k f)
        → (zenith_one f.zenith ≡ (angles_at r.recorded.first).zenith)
        × (zenith_two f.zenith f.two_i ≡ (angles_at r.recorded.second).zenith) }
    ensures mean { (limits : FaceLimits) (h : History) (name : List ℕ) (k : Key) (f : Faces)
        → IsRecordedWith limits h name k f
        → (pos (zenith_mean f.zenith f.two_i) +ℤ f.two_i) ≡ f.zenith +ℤ f.zenith }
{}

/// What is printed as the standard deviation of the mean of two zenith angles or more is just that,
/// and no other number is.
pub fn zenith_deviations()
    ensures is { (zeniths : List ℕ) → 2 ≤ length zeniths
        → IsZenithDeviation zeniths (zenith_deviation zeniths) }
    ensures one { (zeniths : List ℕ) (units : ℕ) → 2 ≤ length zeniths
        → IsZenithDeviation zeniths units → units ≡ zenith_deviation zeniths }
{}

/// What a report computes of a station is one, each number of it.
pub fn one_computed()
    ensures { (station : StationValue) (ds es : List ℕ) (rs ss : List AdjustedObs)
        (m n : ℕ) (d e : Option Accuracy)
        → IsComputed station ds rs m d → IsComputed station es ss n e
        → (ds ≡ es) × (rs ≡ ss) × (m ≡ n) × (d ≡ e) }
{}

/// No note that may be stated in a language prints a line that the head has there under a label of
/// its own, whatever that line says.
pub fn notes_apart()
    ensures { (language : Language) (label key said entry : List ℕ) → IsOwnLabel language label
        → IsFree language key → note_text key said ≢ entry_text label entry }
{}

/// The version that a report names.
pub fn version()
    ensures { VERSION.now ≡ codes "1.0.0" }
{}
