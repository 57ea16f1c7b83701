//! The fixed phrases of a report, in each language.
ghost use Rattle.std.specs.Prelude.{◌≡◌};
ghost use Rattle.report_phrases.specs.Phrases as spec;

use crate::language::Language;

/// A fixed phrase of a report.
#[derive(Clone, Copy, Debug, Drop)]
pub enum Phrase {
    /// What the first line says after the program and its version.
    Title,

    /// The label of the path of the field file.
    FieldFile,

    /// The label of the serial number that the field file recorded, in its column of 22 characters, as
    /// those of the next four.
    SerialNumber,

    /// The label of the type of the instrument that it recorded.
    InstrumentType,

    /// The label of the date that it recorded.
    RecordedDate,

    /// The label of the first form of the time that it recorded.
    TimeFormatOne,

    /// The label of the second form of that time.
    TimeFormatTwo,

    /// What stands after the first of several contents that are not all alike.
    AndOthers,

    /// What stands between a first content and a last one.
    ToLast,

    /// The label of the name of the station.
    Station,

    /// The label of the date.
    Date,

    /// The label of how many sets there are.
    Sets,

    /// The label of how many targets there are.
    Targets,

    /// The label of how many two-face directions there are.
    TwoFaceDirections,

    /// The label of how many directions are missing.
    MissingDirections,

    /// What stands before the numbers of sets that lack a target.
    InSet,

    /// The label of the limit of 2c.
    LimitOfTwoC,

    /// The label of the limit of 2i.
    LimitOfTwoI,

    /// The label of the limit of residuals.
    LimitOfResiduals,

    /// The title of the readings.
    Readings,

    /// The titles of their columns.
    ReadingColumns,

    /// What stands before the means of 2c and 2i.
    Mean,

    /// What stands before half of these.
    HalfOfMean,

    /// What stands before how far 2c and 2i spread.
    Spread,

    /// The title of the zenith angles.
    ZenithAngles,

    /// The titles of their columns.
    ZenithColumns,

    /// The title of the means of zenith angles.
    ZenithMeans,

    /// The titles of their columns.
    ZenithMeanColumns,

    /// The title of the adjusted directions.
    Directions,

    /// The titles of their columns.
    DirectionColumns,

    /// The title of the residuals.
    Residuals,

    /// What stands before the numbers of sets above the residuals.
    ResidualColumns,

    /// What stands between a residual and the number of its set.
    AndSet,

    /// What stands between that and the name of its target.
    AndTarget,

    /// The label of the greatest residual.
    GreatestResidual,

    /// The label of the degrees of freedom.
    DegreesOfFreedom,

    /// What stands in place of residuals where no angle was measured twice.
    NothingToCompare,

    /// The label of the sum of squares.
    SumOfSquares,

    /// The label of a standard deviation.
    StandardDeviation,

    /// Of what the first is, after its unit.
    OfOneDirection,

    /// Of what the second is, after its unit.
    OfEachAdjusted,

    /// What stands in its place where a set lacks a target.
    NotOfAdjusted,

    /// The label of the line for a place and a date.
    PlaceAndDate,

    /// The label of the line for a signature.
    Signature,

    /// The title of the directions of a table.
    StatedDirections,

    /// The titles of their columns.
    StatedColumns,

    /// The label of the path of the table.
    Table,

    /// The label of the limit of the comparison.
    LimitOfDifferences,

    /// The label of the verdict.
    Comparison,

    /// The title of the digests.
    Digests,
}

impl Phrase {
    /// The phrase in a language.
    pub fn said(self, language: Language) -> &'static [u8]
        ensures { result.now ≡ spec.said language self }
    {
        match language {
            Language::English => english(self).as_bytes(),
            Language::German => german(self).as_bytes(),
            Language::French => french(self).as_bytes(),
        }
    }
}

/// The phrase in English.
fn english(phrase: Phrase) -> &'static str
    ensures { result.now ≡ spec.english phrase }
{
    match phrase {
        Phrase::Title => ": report of the sets of a station\n\n",
        Phrase::FieldFile => "Field file",
        Phrase::SerialNumber => "  12 serial number    ",
        Phrase::InstrumentType => "  13 instrument type  ",
        Phrase::RecordedDate => "  17 date             ",
        Phrase::TimeFormatOne => "  18 time format 1    ",
        Phrase::TimeFormatTwo => "  19 time format 2    ",
        Phrase::AndOthers => " and others",
        Phrase::ToLast => " to ",
        Phrase::Station => "Station",
        Phrase::Date => "Date",
        Phrase::Sets => "Sets",
        Phrase::Targets => "Targets",
        Phrase::TwoFaceDirections => "Two-face directions",
        Phrase::MissingDirections => "Missing directions",
        Phrase::InSet => "in set",
        Phrase::LimitOfTwoC => "Limit of 2c",
        Phrase::LimitOfTwoI => "Limit of 2i",
        Phrase::LimitOfResiduals => "Limit of residuals",
        Phrase::Readings => {
            "\nReadings in gon, mean of both faces counted from the first row of the set,\n\
             2c and 2i in mgon\n\n"
        }
        Phrase::ReadingColumns => {
            "  Set  Target               Face I    Face II         Mean        2c        2i\n"
        }
        Phrase::Mean => "Mean",
        Phrase::HalfOfMean => "Half of the mean: collimation and index error",
        Phrase::Spread => "Spread: the greatest less the least",
        Phrase::ZenithAngles => "\nZenith angles in gon, mean of both faces\n\n",
        Phrase::ZenithColumns => "  Set  Target               Face I    Face II         Mean\n",
        Phrase::ZenithMeans => {
            "\nMean of the sets of each target in gon, standard deviation of the mean in mgon\n\n"
        }
        Phrase::ZenithMeanColumns => {
            "  Target            Sets         Mean  Standard deviation\n\n"
        }
        Phrase::Directions => {
            "\nAdjusted directions in gon, by least squares, counted from the first target\n\n"
        }
        Phrase::DirectionColumns => "  Target              Direction\n\n",
        Phrase::Residuals => "\nResiduals in mgon: adjusted direction less two-face direction\n",
        Phrase::ResidualColumns => "\n  Target      Set ",
        Phrase::AndSet => " mgon, set ",
        Phrase::AndTarget => ", target ",
        Phrase::GreatestResidual => "Greatest residual",
        Phrase::DegreesOfFreedom => "Degrees of freedom",
        Phrase::NothingToCompare => "0: no angle was measured twice, nothing to compare",
        Phrase::SumOfSquares => "Sum of squares [vv]",
        Phrase::StandardDeviation => "Standard deviation",
        Phrase::OfOneDirection => " mgon, of one two-face direction",
        Phrase::OfEachAdjusted => " mgon, of each adjusted direction",
        Phrase::NotOfAdjusted => "left out of adjusted directions: a set lacks a target",
        Phrase::PlaceAndDate => "Place, date",
        Phrase::Signature => "Signature",
        Phrase::StatedDirections => {
            "\nStated directions in gon, differences in mgon: stated less adjusted,\n\
             after the best rotation\n\n"
        }
        Phrase::StatedColumns => {
            "  Target                      Stated    Difference    From the median\n\n"
        }
        Phrase::Table => "Table",
        Phrase::LimitOfDifferences => "Limit of differences",
        Phrase::Comparison => "Comparison",
        Phrase::Digests => "\nSHA-256 digests of what was read, as sha256sum prints them\n\n",
    }
}

/// The phrase in German.
#[tactic(auto, unfolding(std::specs::Prelude::encode_utf8))]
fn german(phrase: Phrase) -> &'static str
    ensures { result.now ≡ spec.german phrase }
{
    match phrase {
        Phrase::Title => ": Satzmessprotokoll einer Station\n\n",
        Phrase::FieldFile => "Messdatei",
        Phrase::SerialNumber => "  12 Seriennummer     ",
        Phrase::InstrumentType => "  13 Instrumententyp  ",
        Phrase::RecordedDate => "  17 Datum            ",
        Phrase::TimeFormatOne => "  18 Zeitformat 1     ",
        Phrase::TimeFormatTwo => "  19 Zeitformat 2     ",
        Phrase::AndOthers => " und andere",
        Phrase::ToLast => " bis ",
        Phrase::Station => "Station",
        Phrase::Date => "Datum",
        Phrase::Sets => "Sätze",
        Phrase::Targets => "Ziele",
        Phrase::TwoFaceDirections => "Richtungsmittel",
        Phrase::MissingDirections => "Fehlende Richtungen",
        Phrase::InSet => "in Satz",
        Phrase::LimitOfTwoC => "Grenzwert 2c",
        Phrase::LimitOfTwoI => "Grenzwert 2i",
        Phrase::LimitOfResiduals => "Verbesserungsgrenze",
        Phrase::Readings => {
            "\nAblesungen in gon, Mittel beider Lagen auf erstes Ziel des Satzes reduziert,\n\
             2c und 2i in mgon\n\n"
        }
        Phrase::ReadingColumns => {
            " Satz  Ziel                 Lage I    Lage II       Mittel        2c        2i\n"
        }
        Phrase::Mean => "Mittel",
        Phrase::HalfOfMean => "Halbes Mittel: Zielachsfehler und Indexfehler",
        Phrase::Spread => "Spannweite: Maximum minus Minimum",
        Phrase::ZenithAngles => "\nZenitwinkel in gon, Mittel beider Lagen\n\n",
        Phrase::ZenithColumns => " Satz  Ziel                 Lage I    Lage II       Mittel\n",
        Phrase::ZenithMeans => {
            "\nMittel der Sätze je Ziel in gon, Standardabweichung des Mittels in mgon\n\n"
        }
        Phrase::ZenithMeanColumns => {
            "  Ziel             Sätze       Mittel  Standardabweichung\n\n"
        }
        Phrase::Directions => {
            "\nAusgeglichene Richtungen in gon, kleinste Quadrate, auf erstes Ziel reduziert\n\n"
        }
        Phrase::DirectionColumns => "  Ziel                 Richtung\n\n",
        Phrase::Residuals => {
            "\nVerbesserungen in mgon: ausgeglichene Richtung minus Richtungsmittel\n"
        }
        Phrase::ResidualColumns => "\n  Ziel       Satz ",
        Phrase::AndSet => " mgon, Satz ",
        Phrase::AndTarget => ", Ziel ",
        Phrase::GreatestResidual => "Größte Verbesserung",
        Phrase::DegreesOfFreedom => "Freiheitsgrade",
        Phrase::NothingToCompare => "0: kein Winkel zweimal gemessen, nichts zu vergleichen",
        Phrase::SumOfSquares => "Quadratsumme [vv]",
        Phrase::StandardDeviation => "Standardabweichung",
        Phrase::OfOneDirection => " mgon, einer in zwei Lagen beobachteten Richtung",
        Phrase::OfEachAdjusted => " mgon, jeder ausgeglichenen Richtung",
        Phrase::NotOfAdjusted => "entfällt für ausgeglichene Richtungen: Ziele fehlen",
        Phrase::PlaceAndDate => "Ort, Datum",
        Phrase::Signature => "Unterschrift",
        Phrase::StatedDirections => {
            "\nTabelle in gon, Abweichungen in mgon: Tabelle minus Ausgleichung,\n\
             nach der besten Verdrehung\n\n"
        }
        Phrase::StatedColumns => {
            "  Ziel                       Tabelle    Abweichung         Vom Median\n\n"
        }
        Phrase::Table => "Tabelle",
        Phrase::LimitOfDifferences => "Zulässige Abweichung",
        Phrase::Comparison => "Vergleich",
        Phrase::Digests => "\nSHA-256-Prüfsummen des Gelesenen, wie sha256sum sie ausgibt\n\n",
    }
}

/// The phrase in French.
#[tactic(auto, unfolding(std::specs::Prelude::encode_utf8))]
fn french(phrase: Phrase) -> &'static str
    ensures { result.now ≡ spec.french phrase }
{
    match phrase {
        Phrase::Title => " : procès-verbal de mesures en séries d'une station\n\n",
        Phrase::FieldFile => "Fichier de terrain",
        Phrase::SerialNumber => "  12 n° de série      ",
        Phrase::InstrumentType => "  13 type instrument  ",
        Phrase::RecordedDate => "  17 date             ",
        Phrase::TimeFormatOne => "  18 format d'heure 1 ",
        Phrase::TimeFormatTwo => "  19 format d'heure 2 ",
        Phrase::AndOthers => " et d'autres",
        Phrase::ToLast => " à ",
        Phrase::Station => "Station",
        Phrase::Date => "Date",
        Phrase::Sets => "Séries",
        Phrase::Targets => "Points visés",
        Phrase::TwoFaceDirections => "Directions moyennes",
        Phrase::MissingDirections => "Directions absentes",
        Phrase::InSet => "dans la série",
        Phrase::LimitOfTwoC => "Limite de 2c",
        Phrase::LimitOfTwoI => "Limite de 2i",
        Phrase::LimitOfResiduals => "Limite des résidus",
        Phrase::Readings => {
            "\nLectures en gon, moyenne CG/CD réduite au premier point visé de la série,\n\
             2c et 2i en mgon\n\n"
        }
        Phrase::ReadingColumns => {
            " Sér.  Point visé               CG         CD      Moyenne        2c        2i\n"
        }
        Phrase::Mean => "Moyenne",
        Phrase::HalfOfMean => "Demi-moyenne : erreurs de collimation et d'index",
        Phrase::Spread => "Amplitude : maximum moins minimum",
        Phrase::ZenithAngles => "\nAngles zénithaux en gon, moyenne CG/CD\n\n",
        Phrase::ZenithColumns => " Sér.  Point visé               CG         CD      Moyenne\n",
        Phrase::ZenithMeans => {
            "\nMoyenne des séries par point visé en gon, écart-type de la moyenne en mgon\n\n"
        }
        Phrase::ZenithMeanColumns => {
            "  Point visé      Séries      Moyenne          Écart-type\n\n"
        }
        Phrase::Directions => {
            "\nDirections compensées en gon, moindres carrés, premier point visé à zéro\n\n"
        }
        Phrase::DirectionColumns => "  Point visé          Direction\n\n",
        Phrase::Residuals => "\nRésidus en mgon : direction compensée moins direction moyenne\n",
        Phrase::ResidualColumns => "\n  Point visé Sér. ",
        Phrase::AndSet => " mgon, série ",
        Phrase::AndTarget => ", point visé ",
        Phrase::GreatestResidual => "Plus grand résidu",
        Phrase::DegreesOfFreedom => "Degrés de liberté",
        Phrase::NothingToCompare => "0 : aucun angle mesuré deux fois, rien à comparer",
        Phrase::SumOfSquares => "Somme des carrés [vv]",
        Phrase::StandardDeviation => "Écart-type",
        Phrase::OfOneDirection => " mgon, d'une direction moyenne CG/CD",
        Phrase::OfEachAdjusted => " mgon, de chaque direction compensée",
        Phrase::NotOfAdjusted => "omis pour les directions compensées : série incomplète",
        Phrase::PlaceAndDate => "Lieu, date",
        Phrase::Signature => "Signature",
        Phrase::StatedDirections => {
            "\nDirections de la table en gon, écarts en mgon : table moins compensation,\n\
             après la meilleure rotation\n\n"
        }
        Phrase::StatedColumns => {
            "  Point visé                   Table         Écart      De la médiane\n\n"
        }
        Phrase::Table => "Table",
        Phrase::LimitOfDifferences => "Limite des écarts",
        Phrase::Comparison => "Comparaison",
        Phrase::Digests => "\nEmpreintes SHA-256 de ce qui a été lu, comme les écrit sha256sum\n\n",
    }
}
