ghost use Rattle.std.specs.Prelude.{◌≡◌};
ghost use Rattle.kts_top.specs.declared.content_fault.ContentFault.TheVariants.{Trees, Form, Spec};

use kts_check::SpecFault;
use kts_syntax::FormFault;
use kts_text::TreeFault;

/// Why a file has no forms that are well typed.
#[derive(Drop)]
pub enum ContentFault {
    Trees(TreeFault),
    Form(FormFault),
    Spec(SpecFault),
}

impl From<TreeFault> for ContentFault {
    ghost from_gives = { λ fault content. content ≡ Trees fault };

    fn from(fault: TreeFault) -> ContentFault {
        ContentFault::Trees(fault)
    }
}

impl From<FormFault> for ContentFault {
    ghost from_gives = { λ fault content. content ≡ Form fault };

    fn from(fault: FormFault) -> ContentFault {
        ContentFault::Form(fault)
    }
}

impl From<SpecFault> for ContentFault {
    ghost from_gives = { λ fault content. content ≡ Spec fault };

    fn from(fault: SpecFault) -> ContentFault {
        ContentFault::Spec(fault)
    }
}
