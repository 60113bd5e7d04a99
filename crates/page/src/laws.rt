// The laws of the page format.
ghost use Rattle.page.specs.Fields.{OneViewLaw};
ghost use Rattle.page.specs.Laws.{LongLaw, ByteLaw, BackLaw, ForthLaw, CausesLaw, EntryCausesLaw};

use kinds::kind::PointKind;

// Encoding and reading are inverse both ways. Bytes say one thing at most. Every page whose fields are in range is written as
// 64 bytes, which read back as that page and no other; and what bytes say is written as those bytes and no others.
pub fn forms_stand<K: PointKind>()
    ensures one { OneViewLaw K }
    ensures long { LongLaw K.PointKind.kind }
    ensures byte { ByteLaw K.PointKind.kind }
    ensures back { BackLaw K.PointKind.kind }
    ensures forth { ForthLaw K.PointKind.kind }
{}

// Each cause for which a page or an entry is refused is a good one: bytes with it are those of no page, or of no entry.
pub fn causes_stand<K: PointKind>()
    ensures page { CausesLaw K.PointKind.kind }
    ensures entry { EntryCausesLaw K.PointKind.kind }
{}
