// The second implementation: labels.
use crate::plan::Plan;

// What stands at a place; 0 behind the end.
fn at(labels: &[u64], i: usize) -> u64 {
    labels.get(i).copied().unwrap_or(0)
}

impl Plan<'_> {
    // The xor of the labels around v.
    fn around(&self, labels: &[u64], v: u16) -> u64 {
        let mut sum = 0;
        for (i, end) in self.ends.iter().enumerate() {
            if *end == v {
                sum ^= at(labels, i / 2);
            }
        }
        sum
    }

    // Whether each vertex has the sum of the labels around it.
    pub(crate) fn is_summed(&self, labels: &[u64], sums: &[u64]) -> bool {
        (0..self.vertices).all(|v| self.around(labels, v) == at(sums, usize::from(v)))
    }

    // Whether the labels cancel around every vertex.
    pub(crate) fn is_balanced(&self, labels: &[u64]) -> bool {
        (0..self.vertices).all(|v| self.around(labels, v) == 0)
    }

    // Whether each edge of an excluded vertex has a mark and the label 0, and no other edge a mark.
    pub(crate) fn is_masked(&self, dead: &[u8], labels: &[u64]) -> bool {
        for (e, ends) in self.ends.chunks_exact(2).enumerate() {
            let barred = ends.iter().any(|v| self.excluded.contains(v));
            let marked = dead.get(e) == Some(&1);
            if marked != barred || barred && at(labels, e) != 0 {
                return false;
            }
        }
        true
    }
}
