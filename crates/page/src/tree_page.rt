// Tree pages: a data page or a directory page.
ghost use Rattle.std.specs.Prelude.{◌≡◌, ℕ, List, [], ◌∷◌};
ghost use Rattle.page.specs.Checks.{Checked, NodeRead};

use crate::data_page::data_fields;
use crate::directory_page::{Fork, directory_fields};
use crate::fault::PageFault;
use kinds::kind::PointKind;

// A page of the tree: a data page, whose points stay on the page, or a directory page. Neither is the lack of the other, as an `Option` of a fork would say.
#[derive(Clone, Copy)]
pub enum Node<K> {
    Data,
    Directory(Fork<K>),
}

// Reads a page of the tree.
pub fn read_node<K: PointKind>(page: usize, bytes: &[u8; 64]) -> Result<Node<K>, PageFault>
    ensures { Checked K.PointKind.kind page (K.PointKind.kind.data_kind ∷ (K.PointKind.kind.directory_kind ∷ [])) bytes.now (NodeRead K.PointKind.kind bytes.now) result }
{
    if bytes[0] == K::DATA_PAGE {
        if data_fields::<K>(bytes) {
            return Ok(Node::Data);
        }
        return Err(PageFault::Field(page));
    }
    if bytes[0] != K::DIRECTORY_PAGE {
        return Err(PageFault::Kind(page));
    }
    let fork = directory_fields::<K>(bytes).ok_or(PageFault::Field(page))?;
    Ok(Node::Directory(fork))
}
