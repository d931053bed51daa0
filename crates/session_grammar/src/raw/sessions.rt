//! Sessions as they are written.

use crate::raw::clients::RawClient;
use crate::raw::mappings::RawMapping;
use crate::raw::plans::{RawDataset, RawPlan};
use crate::raw::sections::RawSections;
use aerie_base::List;
use model_reader::RawModel;

/// A session, each list in the order of the text.
#[derive(Drop)]
pub struct RawSession {
    /// 1 to 4 models.
    pub models: List<RawModel>,
    /// At most 16 mappings.
    pub mappings: List<RawMapping>,
    /// The plan of the first model.
    pub plan: RawPlan,
    /// At most 64 datasets.
    pub datasets: List<RawDataset>,
    pub sections: RawSections,
    /// At most 16 clients.
    pub clients: List<RawClient>,
}
