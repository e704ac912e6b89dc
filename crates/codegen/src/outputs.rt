// What is lent for the answer.
#[derive(Drop)]
pub struct Outputs<'a> {
    pub markers: &'a mut [u32],
    pub constants: &'a mut [u32],
    pub names: &'a mut [u32],
    pub errors: &'a mut [u32],
    pub lines: &'a mut [u32],
}
