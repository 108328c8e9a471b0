// The tag of a node.
ghost use Rattle.std.specs.Prelude.{◌≡◌};
ghost use Rattle.serial.specs.Serialize.{default_tag};
ghost use Rattle.serial.specs.Compose.{resolved};
ghost use Rattle.composer.specs.Tags.{bare_tag};

use model::NodeKind;

// The tag that a node of that kind has when its event gives none.
pub fn default_tag(kind: NodeKind) -> &'static [u8]
    ensures { result.now ≡ default_tag kind }
{
    match kind {
        NodeKind::Scalar => b"tag:yaml.org,2002:str",
        NodeKind::Sequence => b"tag:yaml.org,2002:seq",
        NodeKind::Mapping => b"tag:yaml.org,2002:map",
    }
}

// Whether a tag is absent or `!` alone.
fn bare(tag: &[u8]) -> bool
    ensures { result ≡ bare_tag tag.now }
{
    matches!(tag, [] | [b'!'])
}

// The tag of a node: an absent one, or `!` alone, is its kind's default.
pub fn resolve<'a>(kind: NodeKind, tag: &'a [u8]) -> &'a [u8]
    ensures { result.now ≡ resolved kind tag.now }
{
    if bare(tag) { default_tag(kind) } else { tag }
}
