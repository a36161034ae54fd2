ghost use Rattle.laws.specs.Theorems.{MovesLawfully, ContinuesForever, StampsKeep, ClockKeeps, SectionsKeep, BankKeeps, CheckDecides};
ghost use Rattle.laws.specs.WholeSections.{SectionsWhole};

pub fn moves_lawfully() -> u8
    ensures { MovesLawfully }
{
    0
}

pub fn continues_forever() -> u8
    ensures { ContinuesForever }
{
    0
}

pub fn stamps_keep() -> u8
    ensures { StampsKeep }
{
    0
}

pub fn clock_keeps() -> u8
    ensures { ClockKeeps }
{
    0
}

pub fn sections_keep() -> u8
    ensures { SectionsKeep }
{
    0
}

pub fn sections_whole() -> u8
    ensures { SectionsWhole }
{
    0
}

pub fn bank_keeps() -> u8
    ensures { BankKeeps }
{
    0
}

pub fn check_decides() -> u8
    ensures { CheckDecides }
{
    0
}
