// Nothing runs here: each contract names what is proved.
ghost use Rattle.patch.specs.Laws.{OrdersLawful, WindowsShowPatches, WindowsShowAll, AdmitsPatches, NumbersReadBack, ListingTells, Texts};
ghost use Rattle.patch.specs.Samples.{Samples};
ghost use Rattle.patch.specs.Theorems.{ChecksSound, ChecksLength, ChecksRefused, TablesOrder, RecordsByFours, ChecksPassed, ListsPaths, RuleByValues, HasValues, RuleByDiagram, PatchDiagram, Parity, Encodes, EncodesSame, RowValuesExist, Decodes, SettingsInputs, Made};

// The check of a patch finds exactly its faults, the first faulty record first.
pub fn check_finds_faults() -> u8
    ensures checked { ChecksSound }
    ensures length { ChecksLength }
    ensures refused { ChecksRefused }
    ensures tables { TablesOrder }
    ensures fours { RecordsByFours }
    ensures passed { ChecksPassed }
    ensures samples { Samples }
{
    0
}

// The rule by paths: the paths are listed, the rule is computed cell by cell, at gates it is a parity, and it looks at the inputs only.
pub fn rule_is_sum_over_paths() -> u8
    ensures listed { ListsPaths }
    ensures values { RuleByValues }
    ensures exist { HasValues }
    ensures diagram { RuleByDiagram }
    ensures vectors { PatchDiagram }
    ensures parity { Parity }
    ensures inputs { SettingsInputs }
    ensures bits { Made }
{
    0
}

// Diagrams as bytes, and back.
pub fn diagrams_are_written() -> u8
    ensures encodes { Encodes }
    ensures alike { EncodesSame }
    ensures rows { RowValuesExist }
    ensures decodes { Decodes }
{
    0
}

// Scan orders are lawful.
pub fn orders_are_lawful() -> u8
    ensures { OrdersLawful }
{
    0
}

// Windows show patches, and which patches can be admitted.
pub fn windows_show_patches() -> u8
    ensures shown { WindowsShowPatches }
    ensures whole { WindowsShowAll }
    ensures admitted { AdmitsPatches }
{
    0
}

// A listing says all of a patch but its filler.
pub fn listing_tells_records() -> u8
    ensures numbers { NumbersReadBack }
    ensures records { ListingTells }
    ensures texts { Texts }
{
    0
}
