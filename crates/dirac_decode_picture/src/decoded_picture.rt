use dirac_common::Picture;
use dirac_header::PictureHeader;

/// A picture that was decoded, with its parse code and header; and once more where later pictures may refer to it.
#[derive(Drop)]
pub struct DecodedPicture {
    pub code: u8,
    pub header: PictureHeader,
    pub picture: Picture,
    pub reference: Option<Picture>,
}
